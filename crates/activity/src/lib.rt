// The activity of a clock pin in step 3: its flag, and an AND with E for each CKLNQD on the way.
#![tactic(auto)]

ghost use Rattle.std.specs.Prelude.{◌≡◌, true, ◌+◌, ◌*◌, ◌<◌, ◌≤◌, length, get_or};
ghost use Rattle.rules.specs.Graph.{and_of};
ghost use Rattle.rules.specs.Tables.{edge_word, netlist_in};
ghost use Rattle.rules.specs.Build.{is_clock, walk, trace};
ghost use Rattle.roles.specs.Reading.{cell_pins, either_in, entry_of, kind_at};
ghost use Rattle.clocks.specs.Walks.{enables};
ghost use Rattle.drafts.specs.Table.{drivers_of, Adds};
ghost use Rattle.activity.specs.Traced.{IsGateCount, IsGoing, Clocked, lits, end_lit, EndKnown, gates_over, start_at, entry_traced};

use clocks::{WalkEnd, trace_clock_pin};
use drafts::Draft;
use drivers::edge_word;
use roles::cell_entry;
use rules::{Edge, Literal, NetlistTables};

// The literal of a port's flag, with m netlist pins.
fn flag_lit(draft: &Draft, m: usize, q: u32, e: Edge) -> Literal
    requires m_in_bounds { 8 * m ≤ length draft.now.work.now }
    requires q_lt_m { q < m }
    requires e_bound { get_or draft.now.work.now (4 * m + 2 * q + edge_word e) 0 ≤ 16777215 }
    ensures { result.word ≡ 2 * get_or draft.now.work.now (4 * m + 2 * q + edge_word e) 0 }
{
    let edge = edge_word(e) as usize;
    let place = 4 * m + 2 * q as usize + edge;
    let word = 2 * draft.work[place];
    Literal { word }
}

// The literal of where a walk ends: 0 at a constant net.
fn end_lit(draft: &Draft, m: usize, end: WalkEnd) -> Literal
    requires m_in_bounds { 8 * m ≤ length draft.now.work.now }
    requires end_known { EndKnown m draft.now.work.now end }
    ensures { result.word ≡ end_lit m draft.now.work.now end }
{
    match end {
        WalkEnd::Root(q, e) => flag_lit(draft, m, q, e),
        WalkEnd::Still | WalkEnd::Strange | WalkEnd::Far => Literal { word: 0 },
    }
}

// The AND of an activity and the E pin at place i of a clock pin's walk.
fn through(n: NetlistTables, draft: &mut Draft, so: Literal, p: u32, i: u32) -> Option<Literal>
    requires going { IsGoing (netlist_in n) draft.old }
    requires clocked { Clocked (netlist_in n) p }
    requires i_in_bounds { i < length (enables (walk (netlist_in n) p)) }
    ensures { Adds (and_of (drivers_of draft.old) so.word (lits (netlist_in n.entry) (get_or (enables (walk (netlist_in n.entry) p)) i 0))) draft.old draft.new result }
{
    let walk = trace_clock_pin(n, p, i);
    let e = walk.enable as usize;
    let m = n.list.len();
    let place = 7 * m + e;
    let enable = Literal {
        word: draft.work[place],
    };
    draft.and_of(so, enable)
}

// The ANDs with each E pin of a clock pin's walk in turn.
fn through_all(
    n: NetlistTables,
    draft: &mut Draft,
    begin: Literal,
    p: u32,
    gates: u32,
) -> Option<Literal>
    requires going { IsGoing (netlist_in n) draft.old }
    requires clocked { Clocked (netlist_in n) p }
    requires gates_value { IsGateCount (netlist_in n) p gates }
    ensures { Adds (gates_over (lits (netlist_in n.entry)) (start_at (drivers_of draft.old) begin.word) (enables (walk (netlist_in n.entry) p))) draft.old draft.new result }
{
    let mut lit = begin;
    for i in 0..gates {
        lit = through(n, draft, lit, p, i)?;
    }
    Some(lit)
}

// The activity of a clock pin.
fn activity(n: NetlistTables, draft: &mut Draft, p: u32) -> Option<Literal>
    requires going { IsGoing (netlist_in n) draft.old }
    requires clocked { Clocked (netlist_in n) p }
    ensures { Adds (trace (drivers_of draft.old) (lits (netlist_in n.entry)) (walk (netlist_in n.entry) p)) draft.old draft.new result }
{
    let walk = trace_clock_pin(n, p, 0);
    let lit = end_lit(draft, n.list.len(), walk.end);
    through_all(n, draft, lit, p, walk.gates)
}

// The activity of a cell's clock: of those with one of two names the one at k in list order; 0 where there is none.
pub fn clock_activity(
    n: NetlistTables,
    draft: &mut Draft,
    cell: u32,
    a: u32,
    b: u32,
    k: usize,
) -> Option<Literal>
    requires going { IsGoing (netlist_in n) draft.old }
    requires cell_in_bounds { cell < length n.kinds.now }
    requires a_value { is_clock (kind_at (get_or n.kinds.now cell 0)) a ≡ true }
    requires b_value { is_clock (kind_at (get_or n.kinds.now cell 0)) b ≡ true }
    ensures { Adds (entry_traced (netlist_in n.entry) (drivers_of draft.old) (entry_of (either_in n.entry.pins.now a b (cell_pins n.entry.starts.now n.entry.list.now cell)) k)) draft.old draft.new result }
{
    let found = cell_entry(n.starts, n.list, n.pins, cell, a, b, k);
    match found {
        Some(p) => activity(n, draft, p),
        None => Some(Literal { word: 0 }),
    }
}
