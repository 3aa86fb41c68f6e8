// Clock walks: from a clock pin back through INV, BUF and CKLNQD to an input port or a constant net.
#![tactic(auto)]

ghost use Rattle.std.specs.Prelude.{◌≡◌, ℕ, ◌+◌, ◌*◌, ◌<◌, ◌≤◌, length, get_or};
ghost use Rattle.rules.specs.Answers.{done_of};
ghost use Rattle.rules.specs.Cells.{other_edge};
ghost use Rattle.rules.specs.Build.{walk_by, walk};
ghost use Rattle.rules.specs.Tables.{netlist_in};
ghost use Rattle.roles.specs.Reading.{Fits};
ghost use Rattle.clocks.specs.Walks.{told, end_number, plain, on_gate, driver_by};

use roles::{PinRole, role};
use rules::{Edge, NetlistTables, Refusal};

pub mod numbers; // numbers.rt: the walks of all clock pins in step 1 order (refusals 8 and 9)

// Where a walk ends: at a constant net, at an input port asked for an edge, or refused (8: another kind of cell, 9: a 65th cell).
#[derive(Clone, Copy)]
pub enum WalkEnd {
    Still,
    Root(u32, Edge),
    Strange,
    Far,
}

// What is told of a walk: where it ends, how many CKLNQDs it passes, and the E pin of one of them. They are counted from
// the end, in the order of the ANDs that step 3 makes.
#[derive(Clone, Copy)]
pub struct Walked {
    pub end: WalkEnd,
    pub gates: u32,
    pub enable: u32,
}

fn other(e: Edge) -> Edge
    ensures { result ≡ other_edge e }
{
    match e {
        Edge::Rising => Edge::Falling,
        Edge::Falling => Edge::Rising,
    }
}

// A walk that passes no CKLNQD.
fn ended(end: WalkEnd) -> Walked
    ensures { result ≡ plain end }
{
    Walked {
        end,
        gates: 0,
        enable: 0,
    }
}

// One more CKLNQD.
fn passed(walk: Walked, enable: u32, want: u32) -> Walked
    requires { walk.gates < 64 }
    ensures { result ≡ on_gate walk enable want }
{
    Walked {
        gates: walk.gates + 1,
        enable: if want == walk.gates {
            enable
        } else {
            walk.enable
        },
        ..walk
    }
}

// From an input pin, with so many cells left: it asks its driver.
#[cycle(driver_walk_pin_walk)]
fn pin_walk(n: NetlistTables, left: u32, p: u32, e: Edge, want: u32) -> Walked
    requires fits { Fits (netlist_in n) }
    requires p_in_bounds { p < length n.list.now }
    requires left_bound { left ≤ 64 }
    ensures { result ≡ told (walk_by (netlist_in n.entry) left e p) want }
{
    let what = role(n, p);
    match what {
        PinRole::Tied(_) => ended(WalkEnd::Still),
        PinRole::Wire(q) => driver_walk(n, left, q, e, want),
        _ => ended(WalkEnd::Strange),
    }
}

// From a driver: an input port ends the walk, else the driver's cell asks an input pin again. When 64 cells have been
// met a port will do, any cell is too many.
#[cycle(driver_walk_pin_walk)]
fn driver_walk(n: NetlistTables, left: u32, q: u32, e: Edge, want: u32) -> Walked
    requires fits { Fits (netlist_in n) }
    requires q_in_bounds { q < length n.list.now }
    requires left_bound { left ≤ 64 }
    ensures { result ≡ told (driver_by (netlist_in n.entry) left e q) want }
{
    let what = role(n, q);
    match what {
        PinRole::InPort => ended(WalkEnd::Root(q, e)),
        _ if left == 0 => ended(WalkEnd::Far),
        PinRole::InvOut(a) => pin_walk(n, left - 1, a, other(e), want),
        PinRole::BufOut(a) => pin_walk(n, left - 1, a, e, want),
        PinRole::GateOut(clock, enable) => {
            let walk = pin_walk(n, left - 1, clock, e, want);
            passed(walk, enable, want)
        }
        _ => ended(WalkEnd::Strange),
    }
}

// The walk from a clock pin, asked for the rising edge first; with the E pin at place want.
pub fn trace_clock_pin(n: NetlistTables, p: u32, want: u32) -> Walked
    requires fits { Fits (netlist_in n) }
    requires p_in_bounds { p < length n.list.now }
    ensures { result ≡ told (walk (netlist_in n.entry) p) want }
{
    pin_walk(n, 64, p, Edge::Rising, want)
}

// Whether an end is one that a clock may have.
pub fn test_end(end: WalkEnd) -> Result<(), Refusal>
    ensures { result ≡ done_of (end_number end) }
{
    match end {
        WalkEnd::Still | WalkEnd::Root(_, _) => Ok(()),
        WalkEnd::Strange => Err(Refusal::ClockCell),
        WalkEnd::Far => Err(Refusal::ClockLength),
    }
}
