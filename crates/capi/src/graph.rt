// Calls on a driver table, and the check of a whole graph.
ghost use Rattle.std.specs.Prelude.{◌≡◌};
ghost use Rattle.capi.specs.Answer.{counts_of, Checked, Evaluated, FannedOut, Traversed};

use evaluate::evaluate;
use fanouts::fanouts;
use graphs::check_graph;
use rules::{EndTables, GraphCounts, GraphTables};
use tells::{done_number, tell_one, word_told};
use traverse::topo_traverse_generic;

// The graph check, refusal 12 whole.
#[unsafe(no_mangle)]
pub extern "C" fn trazz_check_graph(
    pins: u32,
    output_count: u32,
    dff_count: u32,
    ram_count: u32,
    drivers: &[u32],
    outputs: &[u32],
    dffs: &[u32],
    rams: &[u32],
    work: &mut [u32],
) -> u32
    ensures { Checked (counts_of pins output_count dff_count ram_count) drivers.now outputs.now dffs.now rams.now work.old work.new result }
{
    let counts = GraphCounts {
        pins,
        outputs: output_count,
        dffs: dff_count,
        rams: ram_count,
    };
    let ends = EndTables {
        counts,
        outputs,
        dffs,
        rams,
    };
    done_number(check_graph(GraphTables { ends, drivers }, work))
}

// The visit order. `given` says whether there are roots: no list and an empty one are not the same.
#[unsafe(no_mangle)]
pub extern "C" fn trazz_traverse(
    pins: u32,
    drivers: &[u32],
    given: bool,
    roots: &[u32],
    handed: &[u32],
    order: &mut [u32],
    counts: &mut [u32],
    work: &mut [u32],
) -> u32
    ensures { Traversed drivers.now pins given roots.now handed.now order.old counts.old work.old order.new counts.new work.new result }
{
    let r = topo_traverse_generic(drivers, pins, given, roots, handed, order, work);
    tell_one(word_told(r), order, counts)
}

// One bit a pin.
#[unsafe(no_mangle)]
pub extern "C" fn trazz_evaluate(
    pins: u32,
    drivers: &[u32],
    sources: &[u32],
    bits: &mut [u32],
) -> u32
    ensures { Evaluated drivers.now pins sources.now bits.old bits.new result }
{
    done_number(evaluate(drivers, pins, sources, bits))
}

// The gates that read each pin.
#[unsafe(no_mangle)]
pub extern "C" fn trazz_fanouts(
    pins: u32,
    drivers: &[u32],
    starts: &mut [u32],
    lists: &mut [u32],
) -> u32
    ensures { FannedOut drivers.now pins starts.old lists.old starts.new lists.new result }
{
    done_number(fanouts(drivers, pins, starts, lists))
}
