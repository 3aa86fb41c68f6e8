// Building, from work words that hold the events of the visits and nothing else: steps 1, 2 and 3.
#![tactic(auto)]

ghost use Rattle.std.specs.Prelude.{◌≡◌};
ghost use Rattle.rules.specs.Build.{step2};
ghost use Rattle.rules.specs.Tables.{netlist_in};
ghost use Rattle.visits.specs.Drafting.{Moves};
ghost use Rattle.draws.specs.Drawing.{Empty, fresh, Undrawn, Drawn};

use drafts::Draft;
use ends::record_ends;
use flags::clock_flags;
use rules::{NetlistTables, Rooms, Tally};
use visits::visit_pins;

const NO_TALLY: Tally = Tally {
    pins: 0,
    gates: 0,
    outputs: 0,
    dffs: 0,
    rams: 0,
};

// Steps 1 and 2, from the beginning of a draft on empty tables: the pins, the literals and the outputs.
pub fn make_pins(
    n: NetlistTables,
    draft: &mut Draft,
    outputs: &mut [u32],
    rooms: Rooms,
) -> Option<()>
    requires { Empty (netlist_in n) rooms draft.old.work.now draft.old.drivers.now outputs.old }
    ensures { Moves (netlist_in n.entry) rooms (step2 (netlist_in n.entry)) (fresh (netlist_in n.entry) rooms draft.old) outputs.old draft.new outputs.new result }
{
    draft.at = 8 * n.list.len() + 2 * rooms.pins as usize + 2;
    draft.tally = NO_TALLY;
    clock_flags(n, draft)?;
    visit_pins(n, draft, outputs, rooms)
}

// All three: the driver table, the outputs and the records, and in the work words the literals.
pub fn make_graph(
    n: NetlistTables,
    drivers: &mut [u32],
    outputs: &mut [u32],
    dffs: &mut [u32],
    rams: &mut [u32],
    work: &mut [u32],
    rooms: Rooms,
) -> Option<Tally>
    requires { Undrawn (netlist_in n) rooms work.old drivers.old outputs.old dffs.old rams.old }
    ensures { Drawn (netlist_in n.entry) rooms work.old drivers.old outputs.old dffs.old rams.old work.new drivers.new outputs.new dffs.new rams.new result }
{
    let mut draft = Draft {
        drivers,
        work,
        at: 0,
        tally: NO_TALLY,
    };
    make_pins(n, &mut draft, outputs, rooms)?;
    record_ends(n, &mut draft, dffs, rams)?;
    Some(draft.tally)
}
