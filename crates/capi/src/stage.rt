// Stages: of a whole graph, one split, all splits, and a part of a stage.
ghost use Rattle.std.specs.Prelude.{◌≡◌};
ghost use Rattle.subsets.specs.Answer.{stage_of};
ghost use Rattle.capi.specs.Answer.{counts_of, FullStaged, Subsetted, Split, AllStages};

use parts::from_split;
use rules::{EndTables, GraphCounts, GraphTables};
use staging::build_staged_aigs;
use subsets::{from_full_aig, to_endpoint_subset};
use tells::{stage_told, stages_told, tell_one, tell_three, tell_two};

// The whole graph as one stage.
#[unsafe(no_mangle)]
pub extern "C" fn trazz_full(
    pins: u32,
    output_count: u32,
    dff_count: u32,
    ram_count: u32,
    taken: &mut [u32],
    counts: &mut [u32],
) -> u32
    ensures { FullStaged (counts_of pins output_count dff_count ram_count) taken.old counts.old taken.new counts.new result }
{
    let c = GraphCounts {
        pins,
        outputs: output_count,
        dffs: dff_count,
        rams: ram_count,
    };
    let r = from_full_aig(c, taken);
    tell_one(stage_told(r), taken, counts)
}

// A part of a stage, by places.
#[unsafe(no_mangle)]
pub extern "C" fn trazz_subset(
    handed: &[u32],
    taken: &[u32],
    subset: &[u32],
    handed_out: &mut [u32],
    taken_out: &mut [u32],
    counts: &mut [u32],
) -> u32
    ensures { Subsetted (stage_of handed.now taken.now) subset.now handed_out.old taken_out.old counts.old handed_out.new taken_out.new counts.new result }
{
    let r = to_endpoint_subset(handed, taken, subset, handed_out, taken_out);
    tell_two(stage_told(r), handed_out, taken_out, counts)
}

// One split, asked alone.
#[unsafe(no_mangle)]
pub extern "C" fn trazz_split(
    pins: u32,
    output_count: u32,
    dff_count: u32,
    ram_count: u32,
    drivers: &[u32],
    outputs: &[u32],
    dffs: &[u32],
    rams: &[u32],
    chosen: &[u32],
    before: &[u32],
    level: u32,
    handed: &mut [u32],
    taken: &mut [u32],
    counts: &mut [u32],
    work: &mut [u32],
) -> u32
    ensures { Split (counts_of pins output_count dff_count ram_count) drivers.now outputs.now dffs.now rams.now chosen.now before.now level handed.old taken.old counts.old work.old handed.new taken.new counts.new work.new result }
{
    let ends = EndTables {
        counts: GraphCounts {
            pins,
            outputs: output_count,
            dffs: dff_count,
            rams: ram_count,
        },
        outputs,
        dffs,
        rams,
    };
    let g = GraphTables { ends, drivers };
    let r = from_split(g, chosen, before, level, handed, taken, work);
    tell_two(stage_told(r), handed, taken, counts)
}

// All stages of a list of levels.
#[unsafe(no_mangle)]
pub extern "C" fn trazz_stages(
    pins: u32,
    output_count: u32,
    dff_count: u32,
    ram_count: u32,
    drivers: &[u32],
    outputs: &[u32],
    dffs: &[u32],
    rams: &[u32],
    splits: &[u32],
    room: u32,
    rows: &mut [u32],
    handed: &mut [u32],
    taken: &mut [u32],
    counts: &mut [u32],
    work: &mut [u32],
) -> u32
    ensures { AllStages (counts_of pins output_count dff_count ram_count) drivers.now outputs.now dffs.now rams.now splits.now room rows.old handed.old taken.old counts.old work.old rows.new handed.new taken.new counts.new work.new result }
{
    let ends = EndTables {
        counts: GraphCounts {
            pins,
            outputs: output_count,
            dffs: dff_count,
            rams: ram_count,
        },
        outputs,
        dffs,
        rams,
    };
    let g = GraphTables { ends, drivers };
    let r = build_staged_aigs(g, splits, room, rows, handed, taken, work);
    tell_three(stages_told(r), rows, handed, taken, counts)
}
