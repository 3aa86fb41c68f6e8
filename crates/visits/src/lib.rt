// Step 2 of building: the visits of the netlist pins, event by event. A flip-flop output makes its own pin when it is
// entered; everything else is made when a pin is left, once what it visits is there.
#![tactic(auto)]

ghost use Rattle.std.specs.Prelude.{◌≡◌, ℕ, ◌+◌, ◌*◌, ◌<◌, ◌≤◌, length, get_or};
ghost use Rattle.laws.specs.Lists.{first_or};
ghost use Rattle.laws.specs.Search.{enter, leave};
ghost use Rattle.rules.specs.Netlist.{named};
ghost use Rattle.rules.specs.Build.{role, step2};
ghost use Rattle.rules.specs.Tables.{netlist_in};
ghost use Rattle.roles.specs.Reading.{Fits, says};
ghost use Rattle.drafts.specs.Table.{drivers_of, set_reset, Open};
ghost use Rattle.literals.specs.Settled.{word_at, Leaves};
ghost use Rattle.visits.specs.Drafting.{Stored, own_pin, state_at, IsBefore, IsVisiting, Moves, leaving_of};

use drafts::Draft;
use entries::{add_output, make_flop, make_ram};
use literals::{and_out, flop_out, literal_at, operand, port_out, put_literal};
use roles::{PinRole, role};
use rules::{Literal, NetlistTables, Rooms};
use words::word;

// What a pin makes when it is left: it takes a word for its literal, or that of another pin or its opposite; or it is an
// output port, an input port, or the output of an AND2, a flip-flop or a RAM.
#[derive(Clone, Copy)]
pub enum Leaving {
    Take(u32),
    Copy(u32, bool),
    Output(u32),
    Input,
    And(bool, bool, bool, u32, u32),
    Flop(u32),
    Ram(u32, u32),
}

// A CKLNQD output has no logic bit: its literal is the marker.
fn left_as(what: PinRole) -> Leaving
    ensures { result ≡ leaving_of (says what) }
{
    match what {
        PinRole::Tied(b) => Leaving::Take(u32::from(b)),
        PinRole::Wire(q) | PinRole::BufOut(q) => Leaving::Copy(q, false),
        PinRole::OutPort(q) => Leaving::Output(q),
        PinRole::InPort => Leaving::Input,
        PinRole::AndOut(x, y, z, a, b) => Leaving::And(x, y, z, a, b),
        PinRole::InvOut(a) => Leaving::Copy(a, true),
        PinRole::GateOut(_, _) => Leaving::Take(4294967295),
        PinRole::DffOut(cell) => Leaving::Flop(cell),
        PinRole::RamOut(cell, bit) => Leaving::Ram(cell, bit),
        PinRole::Nothing => Leaving::Take(0),
    }
}

// The pin p of event i is entered.
fn enter_pin(
    n: NetlistTables,
    draft: &mut Draft,
    outputs: &[u32],
    rooms: Rooms,
    i: usize,
    p: u32,
) -> Option<()>
    requires { IsBefore (netlist_in n) rooms draft.old outputs.now i p (enter p) }
    ensures { Moves (netlist_in n.entry) rooms (state_at (netlist_in n.entry) (i + 1)) draft.old outputs.now draft.new outputs.now result }
{
    match role(n, p) {
        PinRole::DffOut(cell) => {
            let place = word(n.starts, cell as usize) as usize;
            make_flop(draft, n.list.len(), rooms.dffs, cell, place)
        }
        _ => Some(()),
    }
}

// The output of a flip-flop whose own pin was made before.
fn stored_out(n: NetlistTables, draft: &mut Draft, p: u32, cell: u32) -> Option<()>
    requires fits { Fits (netlist_in n) }
    requires cell_in_bounds { cell < length n.kinds.now }
    requires stored { Stored n.starts.now n.list.now draft.old.work.now cell }
    requires list_bound { 8 * length n.list.now ≤ draft.old.at }
    requires p_in_bounds { p < length n.list.now }
    requires open { Open draft.old }
    ensures { Leaves (length n.entry.list.now) p (set_reset (drivers_of draft.old) (2 * own_pin n.entry.starts.now n.entry.list.now draft.old.work.now cell) (first_or 1 (word_at draft.old.work.now (length n.entry.list.now)) (named (netlist_in n.entry) cell 6)) (first_or 1 (word_at draft.old.work.now (length n.entry.list.now)) (named (netlist_in n.entry) cell 7))) draft.old draft.new result }
{
    let place = word(n.starts, cell as usize) as usize;
    let own = draft.work[n.list.len() + place];
    flop_out(n, draft, p, cell, own)
}

// The pin p of event i is left, as what it is.
fn leave_pin(
    n: NetlistTables,
    draft: &mut Draft,
    outputs: &mut [u32],
    rooms: Rooms,
    i: usize,
    p: u32,
) -> Option<()>
    requires { IsBefore (netlist_in n) rooms draft.old outputs.old i p (leave p) }
    ensures { Moves (netlist_in n.entry) rooms (state_at (netlist_in n.entry) (i + 1)) draft.old outputs.old draft.new outputs.new result }
{
    let what = role(n, p);
    let made = left_as(what);
    let m = n.list.len();
    match made {
        Leaving::Take(literal) => {
            put_literal(draft.work, m, p, Literal { word: literal });
            Some(())
        }
        Leaving::Copy(q, x) => {
            let lit = operand(draft.words(), m, q, x);
            put_literal(draft.work, m, p, lit);
            Some(())
        }
        Leaving::Output(q) => {
            let lit = literal_at(draft.words(), m, q);
            add_output(draft, outputs, m, p, lit)
        }
        Leaving::Input => port_out(draft, m, p),
        Leaving::And(x, y, z, a, b) => and_out(draft, m, p, x, y, z, a, b),
        Leaving::Flop(cell) => stored_out(n, draft, p, cell),
        Leaving::Ram(cell, _) => {
            let place = word(n.starts, cell as usize) as usize;
            make_ram(draft, m, rooms.rams, p, cell, place)
        }
    }
}

// Event i.
fn act(
    n: NetlistTables,
    draft: &mut Draft,
    outputs: &mut [u32],
    rooms: Rooms,
    i: usize,
) -> Option<()>
    requires visiting { IsVisiting (netlist_in n) rooms draft.old outputs.old i }
    requires i_bound { i < 2 * length n.list.now }
    ensures { Moves (netlist_in n.entry) rooms (state_at (netlist_in n.entry) (i + 1)) draft.old outputs.old draft.new outputs.new result }
{
    let place = 2 * n.list.len() + i;
    let event = draft.work[place];
    let p = event / 2;
    if event % 2 == 1 {
        leave_pin(n, draft, outputs, rooms, i, p)
    } else {
        enter_pin(n, draft, outputs, rooms, i, p)
    }
}

// All events.
pub fn visit_pins(
    n: NetlistTables,
    draft: &mut Draft,
    outputs: &mut [u32],
    rooms: Rooms,
) -> Option<()>
    requires { IsVisiting (netlist_in n) rooms draft.old outputs.old 0 }
    ensures { Moves (netlist_in n.entry) rooms (step2 (netlist_in n.entry)) draft.old outputs.old draft.new outputs.new result }
{
    for i in 0..2 * n.list.len() {
        act(n, draft, outputs, rooms, i)?;
    }
    Some(())
}
