// Step 1 of building: each new (port, edge) at which a clock walk ends makes a pin, a clock flag; a CKLNQD is a buffer here.
// By port and edge the work words keep the flag's pin, so that a known one is found at once.
#![tactic(auto)]

ghost use Rattle.std.specs.Prelude.{◌≡◌, ℕ, ◌+◌, ◌-◌, ◌*◌, ◌<◌, ◌≤◌, length, get_or, take, drop};
ghost use Rattle.laws.specs.Lists.{over};
ghost use Rattle.rules.specs.Build.{flag_for, step1};
ghost use Rattle.rules.specs.Tables.{netlist_in};
ghost use Rattle.roles.specs.Reading.{Fits, kind_at};
ghost use Rattle.drafts.specs.Table.{drivers_of};
ghost use Rattle.flags.specs.Flagging.{Span, PortWithin, flag_at, flag_if, flags_of, IsFlagging, IsBlank, AddsFlags};

use clocks::numbers::is_clock;
use clocks::{WalkEnd, trace_clock_pin};
use drafts::Draft;
use drivers::edge_word;
use roles::pin_word;
use rules::{Driver, Edge, NetlistTables};

// The flag of a port and an edge, made where it is new.
fn add_flag(draft: &mut Draft, m: usize, q: u32, e: Edge) -> Option<()>
    requires flagging { IsFlagging m draft.old }
    requires q_lt_m { q < m }
    ensures { AddsFlags m (flag_for (drivers_of draft.old) q e).drivers draft.old draft.new result }
{
    let edge = edge_word(e) as usize;
    let port = q as usize;
    let place = 4 * m + 2 * port + edge;
    let old = draft.work[place];
    if old != 0 {
        return Some(());
    }
    draft.push(Driver::Flag(q, e))?;
    draft.work[place] = draft.tally.pins;
    Some(())
}

// The flag at the end of a walk.
fn end_flag(draft: &mut Draft, m: usize, end: WalkEnd) -> Option<()>
    requires flagging { IsFlagging m draft.old }
    requires port_within { PortWithin m end }
    ensures { AddsFlags m (flag_at (drivers_of draft.old) end) draft.old draft.new result }
{
    match end {
        WalkEnd::Root(q, e) => add_flag(draft, m, q, e),
        WalkEnd::Still | WalkEnd::Strange | WalkEnd::Far => Some(()),
    }
}

// The flag of a pin, where a cell of this kind has it as a clock.
fn pin_flag(n: NetlistTables, draft: &mut Draft, kind: u32, p: u32) -> Option<()>
    requires fits { Fits (netlist_in n) }
    requires flagging { IsFlagging (length n.list.now) draft.old }
    requires p_in_bounds { p < length n.list.now }
    ensures { AddsFlags (length n.entry.list.now) (flag_if (netlist_in n.entry) (kind_at kind) (drivers_of draft.old) p) draft.old draft.new result }
{
    let name = pin_word(n.pins, p, 1);
    let clock = is_clock(kind, name);
    if !clock {
        return Some(());
    }
    let walk = trace_clock_pin(n, p, 0);
    end_flag(draft, n.list.len(), walk.end)
}

// The flags of so many entries from a place on, of a cell of this kind.
fn list_flags(
    n: NetlistTables,
    draft: &mut Draft,
    kind: u32,
    from: usize,
    count: usize,
) -> Option<()>
    requires fits { Fits (netlist_in n) }
    requires flagging { IsFlagging (length n.list.now) draft.old }
    requires span { Span n.list.now «from» count }
    ensures { AddsFlags (length n.entry.list.now) (over (flag_if (netlist_in n.entry) (kind_at kind)) (drivers_of draft.old) (take count (drop «from» n.entry.list.now))) draft.old draft.new result }
{
    for i in 0..count {
        let p = n.list[from + i];
        pin_flag(n, draft, kind, p)?;
    }
    Some(())
}

// The flags of a cell's clocks, in list order.
fn cell_flags(n: NetlistTables, draft: &mut Draft, cell: usize) -> Option<()>
    requires fits { Fits (netlist_in n) }
    requires flagging { IsFlagging (length n.list.now) draft.old }
    requires cell_in_bounds { cell < length n.kinds.now }
    ensures { AddsFlags (length n.entry.list.now) (flags_of (netlist_in n.entry) (drivers_of draft.old) cell) draft.old draft.new result }
{
    let kind = n.kinds[cell];
    let from = n.starts[cell] as usize;
    let end = n.starts[cell + 1] as usize;
    let count = end - from;
    list_flags(n, draft, kind, from, count)
}

// The flags of all clocks, cells upward.
pub fn clock_flags(n: NetlistTables, draft: &mut Draft) -> Option<()>
    requires fits { Fits (netlist_in n) }
    requires blank { IsBlank (length n.list.now) draft.old }
    ensures { AddsFlags (length n.entry.list.now) (step1 (netlist_in n.entry)) draft.old draft.new result }
{
    for cell in 0..n.kinds.len() {
        cell_flags(n, draft, cell)?;
    }
    Some(())
}
