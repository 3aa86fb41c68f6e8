// Building: the graph of a netlist.
ghost use Rattle.std.specs.Prelude.{◌≡◌, ◌≤◌, length};
ghost use Rattle.laws.specs.Words.{zeros, filled};
ghost use Rattle.aig.specs.Building.{lent, lengths_of};
ghost use Rattle.capi.specs.Building.{netlist_of, rooms_of, starts_asked, tally_words, MadeTold, BuiltTold, GraphBuilt};

use aig::from_netlistdb;
use rules::{NetlistCounts, NetlistTables, Refusal, Rooms, Tally};
use words::zero;

// The starts of the cells' lists, and none where the counts have no room: that is a refusal 2 of the call below, which then leaves all
// results and work words 0.
fn starts_asked(starts: &[u32], room: usize) -> &[u32]
    ensures { result.now ≡ starts_asked room starts.now }
{
    if room < 5 {
        return &starts[0..0];
    }
    starts
}

fn put_five(counts: &mut [u32], t: Tally)
    requires counts_value { counts.old ≡ zeros (length counts.old) }
    requires in_bounds { 5 ≤ length counts.old }
    ensures { counts.new ≡ filled (tally_words t) (length counts.old) }
{
    counts[0] = t.pins;
    counts[1] = t.gates;
    counts[2] = t.outputs;
    counts[3] = t.dffs;
    counts[4] = t.rams;
}

// The tallies of a graph that was made; 2 where they have no room.
fn tell_made(t: Tally, counts: &mut [u32]) -> u32
    requires { counts.old ≡ zeros (length counts.old) }
    ensures { MadeTold t counts.old counts.new result }
{
    if counts.len() < 5 {
        return 2;
    }
    put_five(counts, t);
    0
}

fn tell_built(r: Result<Tally, Refusal>, counts: &mut [u32]) -> u32
    ensures { BuiltTold r counts.old counts.new result }
{
    zero(counts);
    match r {
        Ok(t) => tell_made(t, counts),
        Err(e) => e.number(),
    }
}

// The graph of a netlist, its literals, records and fanouts.
#[unsafe(no_mangle)]
pub extern "C" fn trazz_build(
    cell_count: u32,
    pin_count: u32,
    net_count: u32,
    pin_room: u32,
    output_room: u32,
    dff_room: u32,
    ram_room: u32,
    fanout_room: u32,
    kinds: &[u32],
    starts: &[u32],
    list: &[u32],
    pins: &[u32],
    nets: &[u32],
    drivers: &mut [u32],
    outputs: &mut [u32],
    dffs: &mut [u32],
    rams: &mut [u32],
    literals: &mut [u32],
    fanout_starts: &mut [u32],
    fanouts: &mut [u32],
    counts: &mut [u32],
    work: &mut [u32],
) -> u32
    ensures { GraphBuilt (netlist_of cell_count pin_count net_count) (rooms_of pin_room output_room dff_room ram_room fanout_room) kinds.now starts.now list.now pins.now nets.now (lengths_of (lent drivers.old outputs.old dffs.old rams.old literals.old fanout_starts.old fanouts.old) (length work.old)) counts.old (lent drivers.new outputs.new dffs.new rams.new literals.new fanout_starts.new fanouts.new) counts.new work.new result }
{
    let c = NetlistCounts {
        cells: cell_count,
        pins: pin_count,
        nets: net_count,
    };
    let rooms = Rooms {
        pins: pin_room,
        outputs: output_room,
        dffs: dff_room,
        rams: ram_room,
        fanouts: fanout_room,
    };
    let asked = starts_asked(starts, counts.len());
    let n = NetlistTables {
        kinds,
        starts: asked,
        list,
        pins,
        nets,
    };
    let r = from_netlistdb(
        c,
        rooms,
        n,
        drivers,
        outputs,
        dffs,
        rams,
        literals,
        fanout_starts,
        fanouts,
        work,
    );
    tell_built(r, counts)
}
