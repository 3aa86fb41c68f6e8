// Runs document 01's lists of split levels through build_staged_aigs, on tables that start full of other words, and prints what it answers.
#![tactic(auto)]

use prints::print_words;
use rules::{EndTables, GraphCounts, GraphTables, Refusal, StagesSize};
use staging::build_staged_aigs;
use std::io;
use words::all_zero;

// Document 01's M9: sources 1 to 4, gates 5, 6 and 7.
const M9: [u32; 24] = [
    0, 0, 0, 2, 0, 0, 2, 1, 0, 2, 2, 0, 2, 3, 0, 1, 2, 4, 1, 6, 10, 1, 8, 12,
];

// The removal-order case: gate 4 reads source 2 and gate 3, which reads 1 and 2.
const REMOVAL: [u32; 15] = [0, 0, 0, 2, 0, 0, 2, 1, 0, 1, 2, 4, 1, 4, 6];

// How many stages, pins handed on and endpoints there are, or 9 and the number of a refusal.
fn print_staged(rt: &impl Print, label: &[u8], s: Result<StagesSize, Refusal>) -> io::Result<()> {
    match s {
        Ok(n) => print_words(rt, label, &[n.stages, n.handed, n.taken]),
        Err(e) => print_words(rt, label, &[9, e.number()]),
    }
}

// Says where work words are left.
fn print_left(rt: &impl Print, work: &[u32]) -> io::Result<()> {
    if !all_zero(work) {
        print_words(rt, b"  work words left", &[])?;
    }
    Ok(())
}

fn stages(
    rt: &impl Print,
    label: &[u8],
    c: GraphCounts,
    drivers: &[u32],
    outputs: &[u32],
    splits: &[u32],
) -> io::Result<()> {
    let mut rows = [7u32; 12];
    let mut handed = [7u32; 5];
    let mut taken = [7u32; 2];
    let mut work = [7u32; 400];
    let g = GraphTables {
        ends: EndTables {
            counts: c,
            outputs,
            dffs: &[],
            rams: &[],
        },
        drivers,
    };
    let s = build_staged_aigs(g, splits, 3, &mut rows, &mut handed, &mut taken, &mut work);
    print_staged(rt, label, s)?;
    print_words(rt, b"  rows", &rows)?;
    print_words(rt, b"  handed", &handed)?;
    print_words(rt, b"  taken", &taken)?;
    print_left(rt, &work)
}

fn counts(pins: u32, outputs: u32) -> GraphCounts {
    GraphCounts {
        pins,
        outputs,
        dffs: 0,
        rams: 0,
    }
}

fn m9(rt: &impl Print, label: &[u8], splits: &[u32]) -> io::Result<()> {
    stages(rt, label, counts(7, 1), &M9, &[14], splits)
}

fn main(rt: HostRuntime) -> io::Result<()> {
    m9(&rt, b"m9 at 1", &[1])?;
    m9(&rt, b"m10, at its depth", &[3])?;
    m9(&rt, b"at 0", &[0])?;
    m9(&rt, b"above its depth", &[16777215])?;
    m9(&rt, b"no levels", &[])?;
    m9(&rt, b"at 1 and 2", &[1, 2])?;
    m9(&rt, b"equal levels", &[1, 1])?;
    m9(&rt, b"falling levels", &[5, 4])?;
    m9(&rt, b"a row too few", &[0, 1, 2])?;
    m9(&rt, b"level past its bound", &[16777216])?;
    stages(&rt, b"removal", counts(4, 2), &REMOVAL, &[6, 8], &[1])?;
    stages(&rt, b"constants only", counts(7, 2), &M9, &[0, 1], &[1])?;
    stages(
        &rt,
        b"a constant and a gate",
        counts(7, 2),
        &M9,
        &[1, 10],
        &[0],
    )?;
    stages(&rt, b"no endpoint", counts(7, 0), &M9, &[], &[1])?;
    stages(&rt, b"wrong counts", counts(6, 1), &M9, &[14], &[1])?;
    stages(&rt, b"output past the pins", counts(7, 1), &M9, &[16], &[1])
}
