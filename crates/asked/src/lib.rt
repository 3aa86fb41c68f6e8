// The core of a split asked alone: what the graph check leaves to test, and the split.
#![tactic(auto)]

ghost use Rattle.std.specs.Prelude.{◌≡◌, ◌+◌, ◌*◌, ◌<◌, ◌≤◌};
ghost use Rattle.asked.specs.Answer.{lists_fit, Room, Begun, PartsIn, PartedIn};

use members::insert_all;
use rules::{GraphTables, Refusal, StageSize};
use splits::{Spot, cut};
use subsets::num_endpoint_groups;
use walk::given::{all_below, set_stops};
use words::zero;

// 1: are the lists, the level and the rooms within their bounds?
pub fn lists_fit(chosen: usize, before: usize, level: u32, handed: usize, taken: usize) -> bool
    ensures { result ≡ lists_fit chosen before level handed taken }
{
    chosen <= 16777215
        && before <= 16777215
        && level <= 16777215
        && handed <= 16777215
        && taken <= 16777215
}

// The chosen endpoints are those left, and the pins handed on before are stops. No where one is out of range or repeats.
fn begin(chosen: &[u32], before: &[u32], work: &mut [u32], m: usize, ends: usize) -> bool
    requires { Room work.old m ends }
    ensures { Begun chosen.now before.now m ends work.old work.new result }
{
    if !all_below(chosen, ends) {
        return false;
    }
    if !all_below(before, m) {
        return false;
    }
    if !set_stops(before, work, m) {
        return false;
    }
    let n = insert_all(chosen, work, 8 * m, ends);
    n == chosen.len()
}

// 15, 14 and 11 of a split of a graph that was checked, and the split.
pub fn part_checked(
    g: GraphTables,
    chosen: &[u32],
    before: &[u32],
    level: u32,
    handed: &mut [u32],
    taken: &mut [u32],
    work: &mut [u32],
) -> Result<StageSize, Refusal>
    requires { PartsIn g handed.old taken.old work.old }
    ensures { PartedIn g.entry chosen.now before.now level handed.old taken.old handed.new taken.new result }
{
    let m = (g.ends.counts.pins as usize) + 1;
    let ends = num_endpoint_groups(g.ends.counts);
    if !begin(chosen, before, work, m, ends) {
        return Err(Refusal::Index);
    }
    let at = Spot {
        m,
        d: level,
        left: chosen.len(),
        handed: 0,
        taken: 0,
    };
    let r = cut(g, work, handed, taken, at);
    let listed = match &r {
        Ok(p) => p.listed,
        Err(e) => e.listed,
    };
    if listed == 0 {
        zero(handed);
        zero(taken);
        return Err(Refusal::NothingRead);
    }
    let Ok(p) = r else {
        zero(handed);
        zero(taken);
        return Err(Refusal::Room);
    };
    Ok(StageSize {
        handed: p.handed as u32,
        taken: p.taken as u32,
    })
}
