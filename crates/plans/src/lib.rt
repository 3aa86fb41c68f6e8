// The core of build_staged_aigs: what the graph check leaves to test, and the stages.
#![tactic(auto)]

ghost use Rattle.std.specs.Prelude.{◌≡◌, ◌+◌, ◌*◌, ◌<◌, ◌≤◌};
ghost use Rattle.rules.specs.Refusals.{rising};
ghost use Rattle.plans.specs.Answer.{levels_fit, PlansIn, StagedIn};

use members::fill_up;
use rules::{GraphTables, Refusal, StagesSize};
use stages::run;
use subsets::num_endpoint_groups;
use walk::given::all_below;
use words::{word, zero};

// 1: are the levels and the rooms within their bounds?
#[tactic(auto, using(crate::proofs::Levels::below_is))]
pub fn levels_fit(splits: &[u32], rows: u32, handed: usize, taken: usize) -> bool
    ensures { result ≡ levels_fit splits.now rows handed taken }
{
    splits.len() <= 64
        && all_below(splits, 16777216)
        && rows <= 65
        && handed <= 16777215
        && taken <= 16777215
}

// 13: does each level stand above the one before it?
fn levels_rise(splits: &[u32]) -> bool
    ensures { result ≡ rising splits.now }
{
    for i in 1..splits.len() {
        let a = word(splits, i - 1);
        let b = word(splits, i);
        if b <= a {
            return false;
        }
    }
    true
}

// 13, 14 and 11 of the stages of a graph that was checked, and the stages.
pub fn plan_checked(
    g: GraphTables,
    splits: &[u32],
    room: u32,
    rows: &mut [u32],
    handed: &mut [u32],
    taken: &mut [u32],
    work: &mut [u32],
) -> Result<StagesSize, Refusal>
    requires { PlansIn g splits.now room rows.old handed.old taken.old work.old }
    ensures { StagedIn g.entry splits.now room rows.old handed.old taken.old rows.new handed.new taken.new result }
{
    if !levels_rise(splits) {
        return Err(Refusal::Levels);
    }
    let m = (g.ends.counts.pins as usize) + 1;
    let ends = num_endpoint_groups(g.ends.counts);
    fill_up(work, 8 * m, ends);
    match run(g, splits, work, rows, handed, taken) {
        Ok(p) => Ok(StagesSize {
            stages: (p.rows / 4) as u32,
            handed: p.handed as u32,
            taken: p.taken as u32,
        }),
        Err(e) => {
            zero(rows);
            zero(handed);
            zero(taken);
            Err(e)
        }
    }
}
