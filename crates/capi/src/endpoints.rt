// Endpoints by number and by place, and what they read.
ghost use Rattle.std.specs.Prelude.{◌≡◌};
ghost use Rattle.capi.specs.Answer.{counts_of, EndFound, StagedFound, InputRead, StagedRead};

use inputs::{endpoint_input, staged_input};
use rules::{EndTables, GraphCounts};
use subsets::{get_endpoint_group, staged_endpoint_group};
use tells::{endpoint_told, tell, word_told};

// The endpoint of a number: its case and its place.
#[unsafe(no_mangle)]
pub extern "C" fn trazz_endpoint(
    pins: u32,
    output_count: u32,
    dff_count: u32,
    ram_count: u32,
    endpoint: u32,
    counts: &mut [u32],
) -> u32
    ensures { EndFound (counts_of pins output_count dff_count ram_count) endpoint counts.old counts.new result }
{
    let c = GraphCounts {
        pins,
        outputs: output_count,
        dffs: dff_count,
        rams: ram_count,
    };
    let r = get_endpoint_group(c, endpoint);
    tell(endpoint_told(r), counts)
}

// What stands at a place of a stage. A place is a word here, as all numbers that C hands in.
#[unsafe(no_mangle)]
pub extern "C" fn trazz_staged_endpoint(
    pins: u32,
    output_count: u32,
    dff_count: u32,
    ram_count: u32,
    handed: &[u32],
    taken: &[u32],
    place: u32,
    counts: &mut [u32],
) -> u32
    ensures { StagedFound (counts_of pins output_count dff_count ram_count) handed.now taken.now place counts.old counts.new result }
{
    let c = GraphCounts {
        pins,
        outputs: output_count,
        dffs: dff_count,
        rams: ram_count,
    };
    let r = staged_endpoint_group(c, handed, taken, place as usize);
    tell(endpoint_told(r), counts)
}

// One input of an endpoint: its pin.
#[unsafe(no_mangle)]
pub extern "C" fn trazz_input(
    pins: u32,
    output_count: u32,
    dff_count: u32,
    ram_count: u32,
    outputs: &[u32],
    dffs: &[u32],
    rams: &[u32],
    endpoint: u32,
    input: u32,
    counts: &mut [u32],
) -> u32
    ensures { InputRead (counts_of pins output_count dff_count ram_count) outputs.now dffs.now rams.now endpoint input counts.old counts.new result }
{
    let ends = EndTables {
        counts: GraphCounts {
            pins,
            outputs: output_count,
            dffs: dff_count,
            rams: ram_count,
        },
        outputs,
        dffs,
        rams,
    };
    let r = endpoint_input(ends, endpoint, input);
    tell(word_told(r), counts)
}

// One input of what stands at a place of a stage.
#[unsafe(no_mangle)]
pub extern "C" fn trazz_staged_input(
    pins: u32,
    output_count: u32,
    dff_count: u32,
    ram_count: u32,
    outputs: &[u32],
    dffs: &[u32],
    rams: &[u32],
    handed: &[u32],
    taken: &[u32],
    place: u32,
    input: u32,
    counts: &mut [u32],
) -> u32
    ensures { StagedRead (counts_of pins output_count dff_count ram_count) outputs.now dffs.now rams.now handed.now taken.now place input counts.old counts.new result }
{
    let ends = EndTables {
        counts: GraphCounts {
            pins,
            outputs: output_count,
            dffs: dff_count,
            rams: ram_count,
        },
        outputs,
        dffs,
        rams,
    };
    let r = staged_input(ends, handed, taken, place as usize, input as usize);
    tell(word_told(r), counts)
}
