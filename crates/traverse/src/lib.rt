// The visit order of a graph, asked alone.
#![tactic(auto)]

ghost use Rattle.std.specs.Prelude.{◌≡◌, true, ◌+◌, ◌≤◌};
ghost use Rattle.laws.specs.Words.{AllBelow};
ghost use Rattle.walk.specs.State.{Going, AllVisited};
ghost use Rattle.rules.specs.Answers.{done_of};
ghost use Rattle.traverse.specs.Answer.{lists_fit, indexes_fit, early_number, upward, asked, Traversed};

use rules::Refusal;
use walk::fit::test_drivers;
use walk::given::{all_below, set_stops};
use walk::{visit, visit_all};
use words::{copy, zero};

// 1: are the lists and the room within their bounds?
fn lists_fit(roots: usize, handed: usize, room: usize) -> bool
    ensures { result ≡ lists_fit roots handed room }
{
    roots <= 16777215 && handed <= 16777215 && room <= 16777215
}

// 15, the first half: are the indexes in range?
fn indexes_fit(m: usize, given: bool, roots: &[u32], handed: &[u32]) -> bool
    ensures { result ≡ indexes_fit m given roots.now handed.now }
{
    (!given || all_below(roots, m)) && all_below(handed, m)
}

// The refusals that show without work words.
fn test_early(
    drivers: &[u32],
    pins: u32,
    given: bool,
    roots: &[u32],
    handed: &[u32],
    room: usize,
    work: usize,
) -> Result<(), Refusal>
    ensures { result ≡ done_of (early_number drivers.now pins given roots.now handed.now room work) }
{
    let n = pins as usize;
    let lists = lists_fit(roots.len(), handed.len(), room);
    test_drivers(drivers, n, lists, 12 * n + 64 <= work)?;
    if !indexes_fit(n + 1, given, roots, handed) {
        return Err(Refusal::Index);
    }
    Ok(())
}

// The visits of the pins from 1 upward.
fn visit_up(drivers: &[u32], work: &mut [u32], m: usize) -> usize
    requires going { Going drivers.now m work.old 0 0 }
    requires m_bound { m ≤ 16777216 }
    ensures { AllVisited drivers.now m (upward m) work.old 0 work.new result }
{
    let mut k = 0;
    for p in 1..m {
        k = visit(drivers, work, m, k, p as u32);
    }
    k
}

// The visits that are asked: of the roots given, or of all pins from 1 upward.
fn run(drivers: &[u32], given: bool, roots: &[u32], work: &mut [u32], m: usize) -> usize
    requires going { Going drivers.now m work.old 0 0 }
    requires m_bound { m ≤ 16777216 }
    requires all_below { given ≡ true → AllBelow m roots.now }
    ensures { AllVisited drivers.now m (asked m given roots.now) work.old 0 work.new result }
{
    if given {
        visit_all(drivers, roots, work, m, 0)
    } else {
        visit_up(drivers, work, m)
    }
}

// The visit order into `order`: from the roots where they are given, else from pins 1 upward, and not past the pins handed on.
// `given` stands beside the roots, and is no Option, since the C interface tests the length of roots that are not given too.
pub fn topo_traverse_generic(
    drivers: &[u32],
    pins: u32,
    given: bool,
    roots: &[u32],
    handed: &[u32],
    order: &mut [u32],
    work: &mut [u32],
) -> Result<u32, Refusal>
    ensures { Traversed drivers.now pins given roots.now handed.now order.old work.old order.new work.new result }
{
    zero(order);
    zero(work);
    test_early(drivers, pins, given, roots, handed, order.len(), work.len())?;
    let m = (pins as usize) + 1;
    if !set_stops(handed, work, m) {
        zero(work);
        return Err(Refusal::Index);
    }
    let listed = run(drivers, given, roots, work, m);
    if order.len() < listed {
        zero(work);
        return Err(Refusal::Room);
    }
    copy(work, 3 * m, order, 0, listed);
    zero(work);
    Ok(listed as u32)
}
