// One stage: a split of the endpoints left, its row, and the words made ready for the next one.
#![tactic(auto)]

ghost use Rattle.std.specs.Prelude.{◌≡◌, ◌+◌, ◌*◌, ◌<◌, ◌≤◌};
ghost use Rattle.rules.specs.Answers.{endpoints};
ghost use Rattle.reads.specs.Reads.{LentIn};
ghost use Rattle.levels.specs.State.{ReadsFitIn};
ghost use Rattle.picks.specs.Tables.{Open};
ghost use Rattle.splits.specs.State.{Idle, CutOffIn};
ghost use Rattle.turns.specs.State.{TurnIn, TurnedIn};

use rules::GraphTables;
use settles::{push_row, settle};
use splits::{Narrow, Piece, Spot, cut};
use subsets::num_endpoint_groups;

// Where the stages are: the lower end, how many endpoints are left, and how many words of the tables are used.
#[derive(Clone, Copy)]
pub struct Run {
    pub lower: u32,
    pub left: usize,
    pub rows: usize,
    pub handed: usize,
    pub taken: usize,
}

// How many words of the tables are used in the end.
#[derive(Clone, Copy)]
pub struct Plan {
    pub rows: usize,
    pub handed: usize,
    pub taken: usize,
}

// Where the next stage begins, or what is used where the stage was the last one.
#[derive(Clone, Copy)]
pub enum Step {
    More(Run),
    Last(Plan),
}

// Whether something was read stands beside the step: what is promised of a stage in which nothing is read needs it.
#[derive(Clone, Copy)]
pub struct Outcome {
    pub read: bool,
    pub step: Step,
}

// A table has too little room; whether something was read all the same.
#[derive(Clone, Copy)]
pub struct NoRoom {
    pub read: bool,
}

// The split of a stage of a graph with m - 1 pins.
fn cut_at(
    g: GraphTables,
    work: &mut [u32],
    handed: &mut [u32],
    taken: &mut [u32],
    at: Run,
    m: usize,
    d: u32,
) -> Result<Piece, Narrow>
    requires lent { LentIn g.ends }
    requires reads_fit { ReadsFitIn g.ends m }
    requires idle { Idle g.drivers.now m (endpoints g.ends.counts) work.old at.left }
    requires handed_open { Open handed.old at.handed }
    requires taken_open { Open taken.old at.taken }
    ensures { CutOffIn g.entry (record { m = m; d = d; left = at.left; handed = at.handed; taken = at.taken }) work.old handed.old taken.old work.new handed.new taken.new result }
{
    let spot = Spot {
        m,
        d,
        left: at.left,
        handed: at.handed,
        taken: at.taken,
    };
    cut(g, work, handed, taken, spot)
}

// A stage by a difference d of levels, also where nothing is read. A stage that hands nothing on is the last and has no
// upper end.
pub fn stage(
    g: GraphTables,
    work: &mut [u32],
    rows: &mut [u32],
    handed: &mut [u32],
    taken: &mut [u32],
    at: Run,
    upper: u32,
    d: u32,
) -> Result<Outcome, NoRoom>
    requires { TurnIn g work.old rows.old handed.old taken.old at }
    ensures { TurnedIn g.entry work.old rows.old handed.old taken.old at upper d work.new rows.new handed.new taken.new result }
{
    let m = (g.ends.counts.pins as usize) + 1;
    let ends = num_endpoint_groups(g.ends.counts);
    let r = match cut_at(g, work, handed, taken, at, m, d) {
        Ok(piece) => piece,
        Err(narrow) => {
            let read = 0 < narrow.listed;
            return Err(NoRoom { read });
        }
    };
    let read = 0 < r.listed;
    let pins = r.handed - at.handed;
    let count = r.taken - at.taken;
    let taking = count as u32;
    if pins == 0 {
        let Some(q) = push_row(rows, at.rows, at.lower, u32::MAX, 0, taking) else {
            return Err(NoRoom { read });
        };
        let step = Step::Last(Plan {
            rows: q,
            handed: r.handed,
            taken: r.taken,
        });
        return Ok(Outcome { read, step });
    }
    let handing = pins as u32;
    let Some(q) = push_row(rows, at.rows, at.lower, upper, handing, taking) else {
        return Err(NoRoom { read });
    };
    let left = settle(
        handed, at.handed, pins, taken, at.taken, count, work, m, ends, r.listed, r.size, at.left,
    );
    let step = Step::More(Run {
        lower: upper,
        left,
        rows: q,
        handed: r.handed,
        taken: r.taken,
    });
    Ok(Outcome { read, step })
}
