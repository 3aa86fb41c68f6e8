// Runs document 01's graph cases through the public calls, on tables that start full of other words, and prints what they answer.
#![tactic(auto)]

use evaluate::evaluate;
use fanouts::fanouts;
use graphs::check_graph;
use inputs::{endpoint_input, staged_input};
use prints::print_words;
use rules::{EndTables, Endpoint, GraphCounts, GraphTables, Refusal};
use std::io;
use subsets::{get_endpoint_group, staged_endpoint_group};
use traverse::topo_traverse_generic;
use words::all_zero;

// Document 01's M9: sources 1 to 4, gates 5, 6 and 7.
const M9: [u32; 24] = [
    0, 0, 0, 2, 1, 0, 2, 2, 0, 2, 3, 0, 2, 4, 0, 1, 2, 4, 1, 6, 10, 1, 8, 12,
];

// M1's graph: a gate of two inverted ports.
const M1: [u32; 12] = [0, 0, 0, 2, 0, 0, 2, 1, 0, 1, 3, 5];

// A clock flag, a port, a flip-flop and two read-data pins of a RAM.
const FLOP: [u32; 18] = [0, 0, 0, 3, 0, 0, 2, 1, 0, 4, 1, 0, 5, 2, 0, 5, 2, 0];

fn number(r: Result<(), Refusal>) -> u32 {
    match r {
        Ok(()) => 0,
        Err(e) => e.number(),
    }
}

// What is left of work words: 0 where they are all 0.
fn left(work: &[u32]) -> u32 {
    if all_zero(work) { 0 } else { 1 }
}

fn check(rt: &impl Print, label: &[u8], g: GraphTables) -> io::Result<()> {
    let mut work = [7u32; 400];
    let k = number(check_graph(g, &mut work));
    print_words(rt, label, &[k, left(&work)])
}

// The counts of a graph without records.
fn counts(pins: u32, outputs: u32) -> GraphCounts {
    GraphCounts {
        pins,
        outputs,
        dffs: 0,
        rams: 0,
    }
}

// A graph without records.
fn plain<'a>(counts: GraphCounts, drivers: &'a [u32], outputs: &'a [u32]) -> GraphTables<'a> {
    let ends = EndTables {
        counts,
        outputs,
        dffs: &[],
        rams: &[],
    };
    GraphTables { ends, drivers }
}

// The counts of a graph with an output, a flip-flop and a RAM.
fn one_of_each() -> GraphCounts {
    GraphCounts {
        pins: 5,
        outputs: 1,
        dffs: 1,
        rams: 1,
    }
}

// A graph of one gate, with its three words and pin 0's first.
fn gate(rt: &impl Print, label: &[u8], first: u32, tag: u32, a: u32, b: u32) -> io::Result<()> {
    let drivers = [first, 0, 0, 2, 0, 0, 2, 1, 0, tag, a, b];
    check(rt, label, plain(counts(3, 0), &drivers, &[]))
}

fn checks(rt: &impl Print) -> io::Result<()> {
    check(rt, b"m9", plain(counts(7, 1), &M9, &[14]))?;
    gate(rt, b"gate", 0, 1, 3, 5)?;
    gate(rt, b"pin 0 a port", 2, 1, 3, 5)?;
    gate(rt, b"another constant", 0, 0, 0, 0)?;
    gate(rt, b"operand its own pin", 0, 1, 3, 6)?;
    gate(rt, b"operand pin 0", 0, 1, 1, 5)?;
    gate(rt, b"larger first", 0, 1, 5, 3)?;
    gate(rt, b"equal operands", 0, 1, 4, 4)?;
    gate(rt, b"no such tag", 0, 6, 3, 5)?;
    gate(rt, b"unused word", 0, 2, 3, 5)?;
    gate(rt, b"no such edge", 0, 3, 3, 2)
}

// A flip-flop with two literals and a pin, and a RAM with two read-data pins.
fn records(
    rt: &impl Print,
    label: &[u8],
    next: u32,
    pin: u32,
    first: u32,
    second: u32,
) -> io::Result<()> {
    let mut ram = [0u32; 123];
    ram[14] = first;
    ram[45] = second;
    let dffs = [next, 2, pin];
    let ends = EndTables {
        counts: one_of_each(),
        outputs: &[4],
        dffs: &dffs,
        rams: &ram,
    };
    check(
        rt,
        label,
        GraphTables {
            ends,
            drivers: &FLOP,
        },
    )
}

fn record_checks(rt: &impl Print) -> io::Result<()> {
    records(rt, b"records", 4, 3, 4, 5)?;
    records(rt, b"flip-flop pin past", 4, 6, 4, 5)?;
    records(rt, b"flip-flop pin of a port", 4, 2, 4, 5)?;
    records(rt, b"next past", 12, 3, 4, 5)?;
    records(rt, b"read data twice", 4, 3, 4, 4)?;
    records(rt, b"read data missing", 4, 3, 4, 0)?;
    records(rt, b"read data of the flip-flop", 4, 3, 3, 5)?;
    check(rt, b"output twice", plain(counts(7, 2), &M9, &[14, 14]))?;
    check(rt, b"output past", plain(counts(7, 1), &M9, &[16]))?;
    check(rt, b"short table", plain(counts(8, 1), &M9, &[14]))?;
    check(rt, b"too many pins", plain(counts(16777216, 1), &M9, &[14]))?;
    check(
        rt,
        b"too many outputs",
        plain(counts(7, 1048577), &M9, &[14]),
    )
}

fn traverse(
    rt: &impl Print,
    label: &[u8],
    given: bool,
    roots: &[u32],
    handed: &[u32],
    order: &mut [u32],
) -> io::Result<()> {
    let mut work = [7u32; 160];
    let k = match topo_traverse_generic(&M9, 7, given, roots, handed, order, &mut work) {
        Ok(_) => 0,
        Err(e) => e.number(),
    };
    print_words(rt, label, &[k, left(&work)])?;
    print_words(rt, b"  order", order)
}

fn traversals(rt: &impl Print) -> io::Result<()> {
    let mut order = [7u32; 8];
    traverse(rt, b"from 7", true, &[7], &[], &mut order)?;
    traverse(rt, b"from all", false, &[], &[], &mut order)?;
    traverse(
        rt,
        b"from 6 and 7 behind 5",
        true,
        &[6, 7],
        &[5],
        &mut order,
    )?;
    traverse(rt, b"from 0", true, &[0, 2, 0], &[], &mut order)?;
    traverse(rt, b"from none", true, &[], &[], &mut order)?;
    traverse(rt, b"out of range", true, &[8], &[], &mut order)?;
    traverse(rt, b"handed on twice", true, &[7], &[5, 5], &mut order)?;
    let mut seven = [7u32; 7];
    traverse(rt, b"exactly the room", true, &[7], &[], &mut seven)?;
    let mut six = [7u32; 6];
    traverse(rt, b"one word short", true, &[7], &[], &mut six)
}

fn values(rt: &impl Print, label: &[u8], sources: &[u32]) -> io::Result<()> {
    let mut bits = [7u32; 8];
    let k = number(evaluate(&M9, 7, sources, &mut bits));
    print_words(rt, label, &[k])?;
    print_words(rt, b"  bits", &bits)
}

fn fans(rt: &impl Print, label: &[u8], drivers: &[u32], lists: &mut [u32]) -> io::Result<()> {
    let mut starts = [7u32; 9];
    let k = number(fanouts(drivers, 7, &mut starts, lists));
    print_words(rt, label, &[k])?;
    print_words(rt, b"  starts", &starts)?;
    print_words(rt, b"  lists", lists)
}

fn fan_cases(rt: &impl Print) -> io::Result<()> {
    let mut eight = [7u32; 8];
    fans(rt, b"fanouts of m9", &M9, &mut eight)?;
    let mut five = [7u32; 5];
    fans(rt, b"one word short", &M9, &mut five)?;
    fans(rt, b"wrong length", &M1, &mut eight)
}

// An endpoint as two words: its case and its index; a refusal as 9 and its number.
fn print_group(rt: &impl Print, label: &[u8], r: Result<Endpoint, Refusal>) -> io::Result<()> {
    match r {
        Ok(Endpoint::Output(k)) => print_words(rt, label, &[0, k]),
        Ok(Endpoint::Flop(k)) => print_words(rt, label, &[1, k]),
        Ok(Endpoint::Memory(k)) => print_words(rt, label, &[2, k]),
        Ok(Endpoint::Handed(p)) => print_words(rt, label, &[3, p]),
        Err(e) => print_words(rt, label, &[9, e.number()]),
    }
}

fn print_read(rt: &impl Print, label: &[u8], r: Result<u32, Refusal>) -> io::Result<()> {
    match r {
        Ok(p) => print_words(rt, label, &[0, p]),
        Err(e) => print_words(rt, label, &[9, e.number()]),
    }
}

// An output, a flip-flop that reads a constant and pin 2, and a RAM that reads pins 1 and 2.
fn lookups(rt: &impl Print) -> io::Result<()> {
    let c = one_of_each();
    let mut ram = [0u32; 123];
    ram[0] = 2;
    ram[60] = 5;
    let ends = EndTables {
        counts: c,
        outputs: &[4],
        dffs: &[5, 0, 3],
        rams: &ram,
    };
    print_group(rt, b"endpoint 0", get_endpoint_group(c, 0))?;
    print_group(rt, b"endpoint 1", get_endpoint_group(c, 1))?;
    print_group(rt, b"endpoint 2", get_endpoint_group(c, 2))?;
    print_group(rt, b"endpoint 3", get_endpoint_group(c, 3))?;
    print_read(rt, b"input 0 of the output", endpoint_input(ends, 0, 0))?;
    print_read(rt, b"input 1 of the output", endpoint_input(ends, 0, 1))?;
    print_read(rt, b"input 0 of the flip-flop", endpoint_input(ends, 1, 0))?;
    print_read(rt, b"input 0 of the RAM", endpoint_input(ends, 2, 0))?;
    print_read(rt, b"input 1 of the RAM", endpoint_input(ends, 2, 1))?;
    print_read(rt, b"input 2 of the RAM", endpoint_input(ends, 2, 2))?;
    print_read(rt, b"input of endpoint 3", endpoint_input(ends, 3, 0))?;
    let short = EndTables {
        outputs: &[],
        ..ends
    };
    print_read(rt, b"short table", endpoint_input(short, 0, 0))
}

// A stage that hands on pins 4 and 0 and takes endpoints 2 and 7.
fn stage_lookups(rt: &impl Print) -> io::Result<()> {
    let c = one_of_each();
    let mut ram = [0u32; 123];
    ram[0] = 2;
    let ends = EndTables {
        counts: c,
        outputs: &[4],
        dffs: &[5, 0, 3],
        rams: &ram,
    };
    print_group(
        rt,
        b"place 0",
        staged_endpoint_group(c, &[4, 0], &[2, 7], 0),
    )?;
    print_group(
        rt,
        b"place 2",
        staged_endpoint_group(c, &[4, 0], &[2, 7], 2),
    )?;
    print_group(
        rt,
        b"place 3",
        staged_endpoint_group(c, &[4, 0], &[2, 7], 3),
    )?;
    print_group(
        rt,
        b"place 4",
        staged_endpoint_group(c, &[4, 0], &[2, 7], 4),
    )?;
    print_read(
        rt,
        b"input of place 0",
        staged_input(ends, &[4, 0], &[2, 7], 0, 0),
    )?;
    print_read(
        rt,
        b"input of place 1",
        staged_input(ends, &[4, 0], &[2, 7], 1, 0),
    )?;
    print_read(
        rt,
        b"input of place 2",
        staged_input(ends, &[4, 0], &[2, 7], 2, 0),
    )?;
    print_read(
        rt,
        b"input of place 3",
        staged_input(ends, &[4, 0], &[2, 7], 3, 0),
    )
}

fn main(rt: HostRuntime) -> io::Result<()> {
    checks(&rt)?;
    record_checks(&rt)?;
    traversals(&rt)?;
    values(&rt, b"all ones", &[0, 1, 1, 1, 1, 0, 0, 0])?;
    values(&rt, b"source 3 zero", &[0, 1, 1, 0, 1, 0, 0, 0])?;
    values(&rt, b"too few sources", &[0, 1, 1, 1])?;
    fan_cases(&rt)?;
    lookups(&rt)?;
    stage_lookups(&rt)
}
