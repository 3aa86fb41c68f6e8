// Runs document 01's splits and subsets through the public calls, on tables that start full of other words, and prints what they answer.
#![tactic(auto)]

use parts::from_split;
use prints::print_words;
use rules::{EndTables, GraphCounts, GraphTables, Refusal, StageSize};
use std::io;
use subsets::{from_full_aig, to_endpoint_subset};
use words::all_zero;

// Sources 1 to 4, gates 5 to 8, and an output of each of the last two gates: M9 and one gate more.
const FORK: [u32; 27] = [
    0, 0, 0, 2, 0, 0, 2, 1, 0, 2, 2, 0, 2, 3, 0, 1, 2, 4, 1, 6, 10, 1, 8, 12, 1, 11, 12,
];

// The removal-order case: gate 4 reads source 2 and gate 3, which reads 1 and 2.
const REMOVAL: [u32; 15] = [0, 0, 0, 2, 0, 0, 2, 1, 0, 1, 2, 4, 1, 4, 6];

fn two_outputs(pins: u32) -> GraphCounts {
    GraphCounts {
        pins,
        outputs: 2,
        dffs: 0,
        rams: 0,
    }
}

// The counts of a stage, or 9 and the number of a refusal; then both tables.
fn print_parted(
    rt: &impl Print,
    label: &[u8],
    p: Result<StageSize, Refusal>,
    handed: &[u32],
    taken: &[u32],
) -> io::Result<()> {
    match p {
        Ok(s) => print_words(rt, label, &[s.handed, s.taken])?,
        Err(e) => print_words(rt, label, &[9, e.number()])?,
    }
    print_words(rt, b"  handed", handed)?;
    print_words(rt, b"  taken", taken)
}

// Says where work words are left.
fn print_left(rt: &impl Print, work: &[u32]) -> io::Result<()> {
    if !all_zero(work) {
        print_words(rt, b"  work words left", &[])?;
    }
    Ok(())
}

fn split_of(
    rt: &impl Print,
    label: &[u8],
    c: GraphCounts,
    drivers: &[u32],
    outputs: &[u32],
    chosen: &[u32],
    before: &[u32],
    level: u32,
) -> io::Result<()> {
    let mut handed = [7u32; 4];
    let mut taken = [7u32; 2];
    let mut work = [7u32; 400];
    let g = GraphTables {
        ends: EndTables {
            counts: c,
            outputs,
            dffs: &[],
            rams: &[],
        },
        drivers,
    };
    let p = from_split(g, chosen, before, level, &mut handed, &mut taken, &mut work);
    print_parted(rt, label, p, &handed, &taken)?;
    print_left(rt, &work)
}

// Of both outputs of the fork.
fn fork(
    rt: &impl Print,
    label: &[u8],
    chosen: &[u32],
    before: &[u32],
    level: u32,
) -> io::Result<()> {
    split_of(
        rt,
        label,
        two_outputs(8),
        &FORK,
        &[14, 16],
        chosen,
        before,
        level,
    )
}

fn splits(rt: &impl Print) -> io::Result<()> {
    fork(rt, b"level 0", &[0, 1], &[], 0)?;
    fork(rt, b"level 1", &[0, 1], &[], 1)?;
    fork(rt, b"level 2", &[0, 1], &[], 2)?;
    fork(rt, b"level 3, the depth", &[0, 1], &[], 3)?;
    fork(rt, b"above the depth", &[0, 1], &[], 16777215)?;
    fork(rt, b"chosen in another order", &[1, 0], &[], 1)?;
    fork(rt, b"behind pin 5", &[1], &[5], 1)?;
    fork(rt, b"its own pin handed on before", &[0], &[7], 0)?;
    fork(rt, b"nothing more to hand on", &[0], &[6, 4], 0)?;
    fork(rt, b"behind pins 4, 5 and 6", &[0, 1], &[4, 5, 6], 1)?;
    split_of(
        rt,
        b"removal puts the last in the hole",
        two_outputs(4),
        &REMOVAL,
        &[6, 8],
        &[0, 1],
        &[],
        1,
    )?;
    split_of(
        rt,
        b"constants only",
        two_outputs(8),
        &FORK,
        &[0, 1],
        &[0, 1],
        &[],
        0,
    )
}

fn refused_splits(rt: &impl Print) -> io::Result<()> {
    fork(rt, b"nothing chosen", &[], &[], 1)?;
    fork(rt, b"endpoint past the count", &[2], &[], 1)?;
    fork(rt, b"endpoint chosen twice", &[0, 0], &[], 1)?;
    fork(rt, b"pin past the count handed on before", &[0], &[9], 1)?;
    fork(rt, b"handed on before twice", &[0], &[5, 5], 1)?;
    fork(rt, b"level past its bound", &[0], &[], 16777216)?;
    split_of(
        rt,
        b"wrong counts",
        two_outputs(7),
        &FORK,
        &[14, 16],
        &[0],
        &[],
        1,
    )?;
    split_of(
        rt,
        b"output past the pins",
        two_outputs(8),
        &FORK,
        &[14, 18],
        &[0],
        &[],
        1,
    )
}

fn subset_of(
    rt: &impl Print,
    label: &[u8],
    handed: &[u32],
    taken: &[u32],
    places: &[u32],
) -> io::Result<()> {
    let mut handed_out = [7u32; 3];
    let mut taken_out = [7u32; 3];
    let p = to_endpoint_subset(handed, taken, places, &mut handed_out, &mut taken_out);
    print_parted(rt, label, p, &handed_out, &taken_out)
}

fn subsets(rt: &impl Print) -> io::Result<()> {
    let mut two = [7u32; 2];
    let mut three = [7u32; 3];
    let mut one = [7u32; 1];
    print_parted(
        rt,
        b"whole graph",
        from_full_aig(two_outputs(8), &mut three),
        &[],
        &three,
    )?;
    print_parted(
        rt,
        b"exactly the room",
        from_full_aig(two_outputs(8), &mut two),
        &[],
        &two,
    )?;
    print_parted(
        rt,
        b"one word short",
        from_full_aig(two_outputs(8), &mut one),
        &[],
        &one,
    )?;
    subset_of(rt, b"all places", &[4, 3, 5], &[1, 0], &[0, 1, 2, 3, 4])?;
    subset_of(
        rt,
        b"repeats and order kept",
        &[4, 3, 5],
        &[1, 0],
        &[2, 2, 0, 4, 4, 3],
    )?;
    subset_of(rt, b"no places", &[4, 3, 5], &[1, 0], &[])?;
    subset_of(
        rt,
        b"handed-on place behind an endpoint's",
        &[4],
        &[1],
        &[1, 0],
    )?;
    subset_of(rt, b"place past the stage", &[4], &[1], &[2])?;
    subset_of(
        rt,
        b"more than the room",
        &[4, 3, 5],
        &[1, 0],
        &[0, 0, 1, 2],
    )
}

fn main(rt: HostRuntime) -> io::Result<()> {
    splits(&rt)?;
    refused_splits(&rt)?;
    subsets(&rt)
}
