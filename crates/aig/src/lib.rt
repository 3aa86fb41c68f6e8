// Building: the graph of a netlist, on lent tables. Any netlist, however broken, ends in an answer.
#![tactic(auto)]

ghost use Rattle.std.specs.Prelude.{◌≡◌, length};
ghost use Rattle.rules.specs.Tables.{netlist_in};
ghost use Rattle.aig.specs.Building.{lent, lengths_of, blank, Unfinished, Finished, Waiting, BuiltAs, Answered};

use draws::make_graph;
use finishes::finish;
use prepares::prepare;
use rules::{NetlistCounts, NetlistTables, Refusal, Rooms, Tally};
use sizes::{Sizes, test_sizes};
use words::zero;

// All result tables 0.
fn clear(
    drivers: &mut [u32],
    outputs: &mut [u32],
    dffs: &mut [u32],
    rams: &mut [u32],
    literals: &mut [u32],
    fanout_starts: &mut [u32],
    fanouts: &mut [u32],
)
    ensures { (lent drivers.new outputs.new dffs.new rams.new literals.new fanout_starts.new fanouts.new) ≡ blank (lengths_of (lent drivers.old outputs.old dffs.old rams.old literals.old fanout_starts.old fanouts.old) 0) }
{
    zero(drivers);
    zero(outputs);
    zero(dffs);
    zero(rams);
    zero(literals);
    zero(fanout_starts);
    zero(fanouts);
}

// The graph of an accepted netlist: its tallies where all of it fits.
fn fill_tables(
    n: NetlistTables,
    drivers: &mut [u32],
    outputs: &mut [u32],
    dffs: &mut [u32],
    rams: &mut [u32],
    literals: &mut [u32],
    fanout_starts: &mut [u32],
    fanouts: &mut [u32],
    work: &mut [u32],
    rooms: Rooms,
) -> Option<Tally>
    requires { Unfinished (netlist_in n) rooms work.old (lent drivers.old outputs.old dffs.old rams.old literals.old fanout_starts.old fanouts.old) }
    ensures { Finished (netlist_in n.entry) rooms work.old (lent drivers.old outputs.old dffs.old rams.old literals.old fanout_starts.old fanouts.old) work.new (lent drivers.new outputs.new dffs.new rams.new literals.new fanout_starts.new fanouts.new) result }
{
    let tally = make_graph(n, drivers, outputs, dffs, rams, work, rooms)?;
    let last = tally.pins;
    let fits = finish(drivers, work, literals, fanout_starts, fanouts, last);
    if fits { Some(tally) } else { None }
}

// 3 to 11 of tables that 1 and 2 let pass, and the graph.
fn build_asked(
    n: NetlistTables,
    drivers: &mut [u32],
    outputs: &mut [u32],
    dffs: &mut [u32],
    rams: &mut [u32],
    literals: &mut [u32],
    fanout_starts: &mut [u32],
    fanouts: &mut [u32],
    work: &mut [u32],
    rooms: Rooms,
) -> Result<Tally, Refusal>
    requires { Waiting n.kinds.now n.starts.now n.list.now n.pins.now rooms work.old (lent drivers.old outputs.old dffs.old rams.old literals.old fanout_starts.old fanouts.old) }
    ensures { BuiltAs (netlist_in n.entry) rooms work.old work.new (lent drivers.new outputs.new dffs.new rams.new literals.new fanout_starts.new fanouts.new) result }
{
    prepare(n, work)?;
    let made = fill_tables(
        n,
        drivers,
        outputs,
        dffs,
        rams,
        literals,
        fanout_starts,
        fanouts,
        work,
        rooms,
    );
    match made {
        Some(tally) => Ok(tally),
        None => {
            clear(
                drivers,
                outputs,
                dffs,
                rams,
                literals,
                fanout_starts,
                fanouts,
            );
            Err(Refusal::Room)
        }
    }
}

// The graph of a netlist, its literals, records and fanouts, with the tallies; or the refusal.
pub fn from_netlistdb(
    c: NetlistCounts,
    rooms: Rooms,
    n: NetlistTables,
    drivers: &mut [u32],
    outputs: &mut [u32],
    dffs: &mut [u32],
    rams: &mut [u32],
    literals: &mut [u32],
    fanout_starts: &mut [u32],
    fanouts: &mut [u32],
    work: &mut [u32],
) -> Result<Tally, Refusal>
    ensures { Answered c rooms (netlist_in n.entry) (lengths_of (lent drivers.old outputs.old dffs.old rams.old literals.old fanout_starts.old fanouts.old) (length work.old)) work.new (lent drivers.new outputs.new dffs.new rams.new literals.new fanout_starts.new fanouts.new) result }
{
    clear(
        drivers,
        outputs,
        dffs,
        rams,
        literals,
        fanout_starts,
        fanouts,
    );
    zero(work);
    let s = Sizes {
        kinds: n.kinds.len(),
        starts: n.starts.len(),
        list: n.list.len(),
        pins: n.pins.len(),
        nets: n.nets.len(),
        drivers: drivers.len(),
        outputs: outputs.len(),
        dffs: dffs.len(),
        rams: rams.len(),
        literals: literals.len(),
        fanout_starts: fanout_starts.len(),
        fanouts: fanouts.len(),
        work: work.len(),
    };
    test_sizes(c, rooms, s)?;
    let answer = build_asked(
        n,
        drivers,
        outputs,
        dffs,
        rams,
        literals,
        fanout_starts,
        fanouts,
        work,
        rooms,
    );
    zero(work);
    answer
}
