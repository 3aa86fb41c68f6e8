// Which netlist pins carry a marker (no logic bit), along the events that `orders` writes: with m pins the events lie from
// 2 * m on, and one word a pin from m on says 0 for none, 1 for the marker, 2 for the marker after an odd number of INVs.
#![tactic(auto)]

ghost use Rattle.std.specs.Prelude.{◌≡◌, ℕ, ◌+◌, ◌*◌, ◌<◌, ◌≤◌, length, get_or};
ghost use Rattle.rules.specs.Tables.{netlist_in};
ghost use Rattle.roles.specs.Reading.{Fits, says};
ghost use Rattle.markers.specs.Marks.{turned, word_by, Inside, marked, LaidOut, Marked};

use roles::{PinRole, role};
use rules::NetlistTables;

// The other marker; none stays none.
fn turn(mark: u32) -> u32
    ensures { result ≡ turned mark }
{
    match mark {
        1 => 2,
        2 => 1,
        _ => 0,
    }
}

// What a pin carries.
fn at(work: &[u32], m: usize, q: u32) -> u32
    requires { m + q < length work.now }
    ensures { result ≡ get_or work.now (m + q) 0 }
{
    work[m + q as usize]
}

// What a pin takes from others, by what it is.
fn carried(work: &[u32], m: usize, what: PinRole) -> u32
    requires m_in_bounds { 2 * m ≤ length work.now }
    requires inside { Inside m (says what) }
    ensures { result ≡ word_by work.now m (says what) }
{
    match what {
        PinRole::Wire(q) | PinRole::OutPort(q) | PinRole::BufOut(q) => at(work, m, q),
        PinRole::InvOut(a) => turn(at(work, m, a)),
        PinRole::GateOut(_, _) => 1,
        _ => 0,
    }
}

// A pin's word.
fn mark_pin(n: NetlistTables, work: &mut [u32], p: u32)
    requires fits { Fits (netlist_in n) }
    requires p_in_bounds { p < length n.list.now }
    requires list_in_bounds { 2 * length n.list.now ≤ length work.old }
    ensures { work.new ≡ marked (netlist_in n.entry) work.old p }
{
    let m = n.list.len();
    let what = role(n, p);
    let mark = carried(work, m, what);
    work[m + p as usize] = mark;
}

// The words of all pins. Each event sets its pin's word: where a pin is left, all that it takes it from was left before.
pub fn mark_all(n: NetlistTables, work: &mut [u32])
    requires fits { Fits (netlist_in n) }
    requires laid_out { LaidOut (netlist_in n) work.old }
    ensures { Marked (netlist_in n.entry) work.old work.new }
{
    let m = n.list.len();
    for i in 0..2 * m {
        let event = work[2 * m + i];
        let p = event / 2;
        mark_pin(n, work, p);
    }
}
