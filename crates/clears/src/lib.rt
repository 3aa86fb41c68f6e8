// After a split: the words that it used are 0 again, what it handed on stops later walks, and what it took has left its set.
#![tactic(auto)]

ghost use Rattle.std.specs.Prelude.{◌≡◌, ℕ, ◌+◌, ◌*◌, ◌<◌, ◌≤◌, length};
ghost use Rattle.laws.specs.Words.{part};
ghost use Rattle.walk.specs.State.{Listing};
ghost use Rattle.members.specs.Set.{SetIn};
ghost use Rattle.joins.specs.State.{Takens};
ghost use Rattle.clears.specs.State.{pin_cleared, PinsCleared, Used, Cleared, StopsAdded, Left};

use members::remove;
use walk::forget;
use words::{fill, word};

// The level, the readers and the place of a pin are 0.
fn clear_pin(work: &mut [u32], m: usize, u: usize)
    requires m_in_bounds { 8 * m ≤ length work.old }
    requires u_lt_m { u < m }
    ensures { work.new ≡ pin_cleared work.old m u }
{
    let level = 4 * m + u;
    let reader = 5 * m + u;
    let place = 7 * m + u;
    work[level] = 0;
    work[reader] = 0;
    work[place] = 0;
}

// The levels, readers and places of the k pins listed are 0 again.
fn clear_pins(work: &mut [u32], m: usize, k: usize)
    requires listing { Listing m work.old k }
    requires m_in_bounds { 8 * m ≤ length work.old }
    ensures { PinsCleared m work.old k work.new }
{
    for i in 0..k {
        let u = word(work, 3 * m + i);
        clear_pin(work, m, u as usize);
    }
}

// All words that a split used are 0 again, so that the next one costs no more than what it visits.
pub fn clear(work: &mut [u32], m: usize, k: usize, size: usize)
    requires { Used m work.old k size }
    ensures { Cleared m work.old work.new }
{
    clear_pins(work, m, k);
    fill(work, 6 * m, size, 0);
    forget(work, m, k);
}

// The pins that were handed on, from a place of their table on, are stops of all later walks.
pub fn add_stops(handed: &[u32], first: usize, count: usize, work: &mut [u32], m: usize)
    requires takens { Takens handed.now first count m }
    requires m_in_bounds { 2 * m ≤ length work.old }
    ensures { StopsAdded m (part handed.now first count) work.old work.new }
{
    for i in 0..count {
        let p = word(handed, first + i);
        let at = m + (p as usize);
        work[at] = 1;
    }
}

// The endpoints taken leave their set one by one; how many are left.
pub fn leave(
    taken: &[u32],
    first: usize,
    count: usize,
    work: &mut [u32],
    m: usize,
    ends: usize,
    left: usize,
) -> usize
    requires takens { Takens taken.now first count ends }
    requires set_in { SetIn work.old (8 * m) ends left }
    ensures { Left m ends left (part taken.now first count) work.old work.new result }
{
    let mut n = left;
    for i in 0..count {
        let e = word(taken, first + i);
        n = remove(work, 8 * m, ends, n, e);
    }
    n
}
