// Between two stages: a row more, and the words made ready for the next split.
#![tactic(auto)]

ghost use Rattle.std.specs.Prelude.{[], ◌∷◌, ℕ, ◌+◌, ◌*◌, ◌<◌, ◌≤◌, length};
ghost use Rattle.laws.specs.Words.{part};
ghost use Rattle.members.specs.Set.{SetIn};
ghost use Rattle.joins.specs.State.{Takens};
ghost use Rattle.clears.specs.State.{Used};
ghost use Rattle.picks.specs.Tables.{Open, Pushing};
ghost use Rattle.settles.specs.State.{Settled};

use clears::{add_stops, clear, leave};

// A row of a stage: its ends, how many pins it hands on and how many endpoints it takes. How many words are used then, or None
// where the row does not fit.
pub fn push_row(
    rows: &mut [u32],
    n: usize,
    lower: u32,
    upper: u32,
    handed: u32,
    taken: u32,
) -> Option<usize>
    requires { Open rows.old n }
    ensures { Pushing rows.old n (lower ∷ upper ∷ handed ∷ taken ∷ []) rows.new result }
{
    let room = rows.len() - n;
    if room < 4 {
        return None;
    }
    rows[n] = lower;
    rows[n + 1] = upper;
    rows[n + 2] = handed;
    rows[n + 3] = taken;
    Some(n + 4)
}

// What a split used is 0 again, what it handed on stops later walks, and what it took has left; how many are left.
pub fn settle(
    handed: &[u32],
    h: usize,
    pins: usize,
    taken: &[u32],
    t: usize,
    count: usize,
    work: &mut [u32],
    m: usize,
    ends: usize,
    listed: usize,
    size: usize,
    left: usize,
) -> usize
    requires used { Used m work.old listed size }
    requires set_in { SetIn work.old (8 * m) ends left }
    requires takens { Takens handed.now h pins m }
    requires takens_2 { Takens taken.now t count ends }
    ensures { Settled m ends left (part handed.now h pins) (part taken.now t count) work.old work.new result }
{
    clear(work, m, listed, size);
    add_stops(handed, h, pins, work, m);
    leave(taken, t, count, work, m, ends, left)
}
