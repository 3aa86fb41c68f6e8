// The stages of a graph that was checked, one after the other.
#![tactic(auto)]

ghost use Rattle.std.specs.Prelude.{◌≡◌, ◌+◌, ◌*◌, ◌<◌, ◌≤◌, length, get_or};
ghost use Rattle.stages.specs.State.{LevelAt, StartIn, PlannedIn};

use rules::{GraphTables, Refusal};
use subsets::num_endpoint_groups;
pub use turns::Plan;
use turns::{Run, Step, stage};
use words::word;

// An upper end, and the difference from the lower one.
#[derive(Drop)]
pub struct Level {
    pub upper: u32,
    pub d: u32,
}

// The upper end of the stage i; behind the last level there is none, and every level is low.
fn level_at(splits: &[u32], i: usize, lower: u32) -> Level
    requires { i < length splits.now → lower ≤ get_or splits.now i 0 }
    ensures { LevelAt splits.now i lower result.upper result.d }
{
    if splits.len() <= i {
        return Level {
            upper: u32::MAX,
            d: u32::MAX,
        };
    }
    let b = word(splits, i);
    let d = b - lower;
    Level { upper: b, d }
}

// All stages; how many words of the tables are used then. Refused where nothing is read, and where a table is too small.
pub fn run(
    g: GraphTables,
    splits: &[u32],
    work: &mut [u32],
    rows: &mut [u32],
    handed: &mut [u32],
    taken: &mut [u32],
) -> Result<Plan, Refusal>
    requires { StartIn g splits.now work.old rows.old handed.old taken.old }
    ensures { PlannedIn g.entry splits.now work.old rows.old handed.old taken.old work.new rows.new handed.new taken.new result }
{
    let mut at = Run {
        lower: 0,
        left: num_endpoint_groups(g.ends.counts),
        rows: 0,
        handed: 0,
        taken: 0,
    };
    for i in 0..=splits.len() {
        let b = level_at(splits, i, at.lower);
        let r = stage(g, work, rows, handed, taken, at, b.upper, b.d);
        let read = match &r {
            Ok(outcome) => outcome.read,
            Err(e) => e.read,
        };
        if !read {
            return Err(Refusal::NothingRead);
        }
        let Ok(outcome) = r else {
            return Err(Refusal::Room);
        };
        match outcome.step {
            Step::More(next) => at = next,
            Step::Last(plan) => return Ok(plan),
        }
    }
    // A stage with no upper end hands nothing on, so it is the last one.
    unreachable!()
}
