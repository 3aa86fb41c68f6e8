// The depth-first visits of step 2 over the pins of a netlist, which may have loops. With m pins the work words hold: one
// mark a pin from 0 (0 not entered, 1 on the stack, 2 left), the stack from m, and the events from 2 * m, one word each:
// twice the pin where it is entered, and 1 more where it is left. Words from 4 * m on are the caller's.
#![tactic(auto)]

ghost use Rattle.std.specs.Prelude.{◌≡◌, ℕ, ◌+◌, ◌*◌, ◌<◌, ◌≤◌, length};
ghost use Rattle.rules.specs.Tables.{netlist_in};
ghost use Rattle.roles.specs.Reading.{Fits};
ghost use Rattle.orders.specs.State.{goes_to, Looked, Going, PinLeft, PinEntered, Step, Finished, Visited, Fresh, Ordered};

use roles::visit_at;
use rules::{NetlistTables, Refusal};

// A place in the visits: the stack's height, and how many events are written.
#[derive(Clone, Copy)]
pub struct Place {
    pub height: usize,
    pub count: usize,
}

// The first place where the visit of a pin goes that was not entered, or none where all were left. One on the stack is a
// loop.
fn look(n: NetlistTables, work: &[u32], p: u32) -> Result<Option<u32>, Refusal>
    requires fits { Fits (netlist_in n) }
    requires p_in_bounds { p < length n.list.now }
    requires list_in_bounds { length n.list.now ≤ length work.now }
    ensures { Looked (goes_to (netlist_in n.entry) p) work.now result }
{
    let mut k = 0;
    while let Some(q) = visit_at(n, p, k) {
        match work[q as usize] {
            0 => return Ok(Some(q)),
            1 => return Err(Refusal::Loop),
            _ => k += 1,
        }
    }
    Ok(None)
}

// The pin p on the top of the stack is left and taken off.
fn leave_pin(work: &mut [u32], m: usize, p: u32, at: Place) -> Place
    requires p_lt_m { p < m }
    requires m_bound { m ≤ 1048576 }
    requires height_nonzero { 0 < at.height }
    requires count_in_bounds { 2 * m + at.count < length work.old }
    ensures { PinLeft m p at work.old work.new result }
{
    let left = 2 * p + 1;
    work[p as usize] = 2;
    work[2 * m + at.count] = left;
    Place {
        height: at.height - 1,
        count: at.count + 1,
    }
}

// The pin q is entered and goes on the stack.
fn enter_pin(work: &mut [u32], m: usize, q: u32, at: Place) -> Place
    requires q_lt_m { q < m }
    requires m_bound { m ≤ 1048576 }
    requires height_lt_m { at.height < m }
    requires count_in_bounds { 2 * m + at.count < length work.old }
    ensures { PinEntered m q at work.old work.new result }
{
    let entered = 2 * q;
    work[q as usize] = 1;
    work[m + at.height] = q;
    work[2 * m + at.count] = entered;
    Place {
        height: at.height + 1,
        count: at.count + 1,
    }
}

// One turn: the top's first visit that was not entered goes on the stack, a loop where it is there already; where all were
// left, the top is left and taken off.
fn turn(n: NetlistTables, work: &mut [u32], at: Place) -> Result<Place, Refusal>
    requires fits { Fits (netlist_in n) }
    requires going { Going (goes_to (netlist_in n)) (length n.list.now) work.old at.height at.count }
    requires height_nonzero { 0 < at.height }
    ensures { Step (goes_to (netlist_in n.entry)) (length n.entry.list.now) work.old at work.new result }
{
    let m = n.list.len();
    let p = work[m + at.height - 1];
    let found = look(n, work, p)?;
    match found {
        Some(q) => Ok(enter_pin(work, m, q, at)),
        None => Ok(leave_pin(work, m, p, at)),
    }
}

// The turns until the stack is empty: how many events are then written. Err where a loop is met.
fn finish(n: NetlistTables, work: &mut [u32], start: Place) -> Result<usize, Refusal>
    requires fits { Fits (netlist_in n) }
    requires going { Going (goes_to (netlist_in n)) (length n.list.now) work.old start.height start.count }
    ensures { Finished (goes_to (netlist_in n.entry)) (length n.entry.list.now) work.old start.height start.count work.new result }
{
    let mut at = start;
    while 0 < at.height {
        at = turn(n, work, at)?;
    }
    Ok(at.count)
}

// A visit of the pin root, where count events are written: how many then are.
fn visit(n: NetlistTables, work: &mut [u32], count: usize, root: u32) -> Result<usize, Refusal>
    requires fits { Fits (netlist_in n) }
    requires going { Going (goes_to (netlist_in n)) (length n.list.now) work.old 0 count }
    requires root_in_bounds { root < length n.list.now }
    ensures { Visited (goes_to (netlist_in n.entry)) (length n.entry.list.now) work.old count root work.new result }
{
    let mark = work[root as usize];
    if mark != 0 {
        return Ok(count);
    }
    let at = enter_pin(work, n.list.len(), root, Place { height: 0, count });
    finish(n, work, at)
}

// The visits of all pins upward, where there is no loop. Then the first 2 * m words from 2 * m on are the events.
pub fn visit_order(n: NetlistTables, work: &mut [u32]) -> Result<(), Refusal>
    requires fits { Fits (netlist_in n) }
    requires fresh { Fresh (length n.list.now) work.old }
    ensures { Ordered (netlist_in n.entry) work.old work.new result }
{
    let mut k = 0;
    for i in 0..n.list.len() {
        k = visit(n, work, k, i as u32)?;
    }
    Ok(())
}
