// The tool as a function on bytes: a netlist's text in, its answer out. It uses the library's public calls alone.
#![tactic(auto)]

ghost use Rattle.std.specs.Prelude.{◌≡◌, ◌+◌, ◌*◌, ◌<◌, ◌≤◌, length, take, drop, min};
ghost use Rattle.answers.specs.Printing.{Printed};
ghost use Rattle.tool.specs.Tool.{pins_bytes, records_bytes, fanouts_bytes, refusal_bytes, wrong_bytes, broken_bytes, refused_bytes};

use aig::from_netlistdb;
use answers::{
    put_bytes, put_drivers, put_field, put_line, put_numbered, put_part, put_rows, put_stages,
};
use rules::{
    EndTables, GraphCounts, GraphTables, NetlistCounts, NetlistTables, Refusal, Rooms, Tally,
};
use sheets::{TextRefusal, accepted, fill_kinds, fill_list, fill_nets, fill_starts};
use staging::build_staged_aigs;
use std::io;
use texts::{Fault, Reading, put_word, read, word_at};

// The first n words of a table, or all of fewer.
fn first(ws: &[u32], n: usize) -> &[u32]
    ensures { result.now ≡ take n ws.now }
{
    &ws[..n.min(ws.len())]
}

// The words of a table behind the first n.
fn behind(ws: &[u32], n: usize) -> &[u32]
    ensures { result.now ≡ drop n ws.now }
{
    &ws[n.min(ws.len())..]
}

// The pins, the literals of m netlist pins, and the drivers.
fn put_pins(out: &mut [u8], at: usize, t: Tally, m: u32, literals: &[u32], drivers: &[u32]) -> usize
    requires { t.pins < 4294967295 }
    ensures { Printed out.old at (pins_bytes t m literals.now drivers.now) out.new result }
{
    let a = put_line(out, at, b"pins", &[t.pins]);
    let b = put_numbered(out, a, b"lit", literals, m);
    put_drivers(out, b, drivers, t.pins + 1)
}

// The records.
fn put_records(out: &mut [u8], at: usize, e: EndTables) -> usize
    ensures { Printed out.old at (records_bytes e.entry.counts e.entry.outputs.now e.entry.dffs.now e.entry.rams.now) out.new result }
{
    let a = put_rows(out, at, b"output", e.outputs, 1, e.counts.outputs);
    let b = put_rows(out, a, b"dff", e.dffs, 3, e.counts.dffs);
    put_rows(out, b, b"ram", e.rams, 123, e.counts.rams)
}

// The fanouts.
fn put_fanouts(out: &mut [u8], at: usize, t: Tally, starts: &[u32], fanouts: &[u32]) -> usize
    ensures { Printed out.old at (fanouts_bytes t starts.now fanouts.now) out.new result }
{
    let pins = t.pins as usize;
    let gates = t.gates as usize;
    let a = put_part(out, at, b"starts", starts, 0, pins + 2);
    put_part(out, a, b"fanouts", fanouts, 0, 2 * gates)
}

// The answer to a netlist that is refused.
fn put_refusal(out: &mut [u8], refusal: Refusal) -> usize
    ensures { Printed out.old 0 (refusal_bytes refusal) out.new result }
{
    put_line(out, 0, b"refused", &[refusal.number()])
}

// The stages of a graph, or the number with which they are refused.
fn put_staged(out: &mut [u8], at: usize, g: GraphTables, levels: &[u32]) -> usize {
    let mut rows = [0u32; 260];
    let mut handed = [0u32; 66560];
    let mut taken = [0u32; 67600];
    let mut work = [0u32; 16512];
    match build_staged_aigs(g, levels, 65, &mut rows, &mut handed, &mut taken, &mut work) {
        Ok(size) => put_stages(out, at, &rows, &handed, &taken, size.stages),
        Err(refusal) => put_line(out, at, b"stages\trefused", &[refusal.number()]),
    }
}

// The part of each table that a graph uses.
fn used<'a>(
    t: Tally,
    drivers: &'a [u32],
    outputs: &'a [u32],
    dffs: &'a [u32],
    rams: &'a [u32],
) -> GraphTables<'a> {
    let counts = GraphCounts {
        pins: t.pins,
        outputs: t.outputs,
        dffs: t.dffs,
        rams: t.rams,
    };
    let ends = EndTables {
        counts,
        outputs: first(outputs, t.outputs as usize),
        dffs: first(dffs, 3 * t.dffs as usize),
        rams: first(rams, 123 * t.rams as usize),
    };
    GraphTables {
        ends,
        drivers: first(drivers, 3 * (t.pins as usize + 1)),
    }
}

// How many of each the tables of put_built hold.
const ROOMS: Rooms = Rooms {
    pins: 1024,
    outputs: 512,
    dffs: 512,
    rams: 16,
    fanouts: 2048,
};

// The graph of a netlist and its stages, or the number with which it is refused.
fn put_built(out: &mut [u8], c: NetlistCounts, n: NetlistTables, levels: &[u32]) -> usize {
    let mut drivers = [0u32; 3075];
    let mut outputs = [0u32; 512];
    let mut dffs = [0u32; 1536];
    let mut rams = [0u32; 1968];
    let mut literals = [0u32; 512];
    let mut fanout_starts = [0u32; 1026];
    let mut fanouts = [0u32; 2048];
    let mut work = [0u32; 13312];
    let k = (c.pins as usize).min(512);
    let lits = &mut literals[..k];
    let built = from_netlistdb(
        c,
        ROOMS,
        n,
        &mut drivers,
        &mut outputs,
        &mut dffs,
        &mut rams,
        lits,
        &mut fanout_starts,
        &mut fanouts,
        &mut work,
    );
    match built {
        Ok(t) => {
            // Never so, since a graph fits the rooms; the test shows what put_pins requires.
            if ROOMS.pins < t.pins {
                return put_refusal(out, Refusal::Room);
            }
            let g = used(t, &drivers, &outputs, &dffs, &rams);
            let p = put_pins(out, 0, t, c.pins, lits, g.drivers);
            let q = put_records(out, p, g.ends);
            let r = put_fanouts(out, q, t, &fanout_starts, &fanouts);
            put_staged(out, r, g, levels)
        }
        Err(refusal) => put_refusal(out, refusal),
    }
}

// The tables of a text with `total` numbers that was read, built.
fn put_tables(
    out: &mut [u8],
    c: NetlistCounts,
    total: usize,
    numbers: &[u32],
    starts: &[u32],
) -> usize
    requires { (c.cells ≤ 512) × (c.pins ≤ 512) }
{
    let mut kinds = [0u32; 512];
    let mut begins = [0u32; 513];
    let mut list = [0u32; 513];
    let mut nets = [0u32; 512];
    fill_kinds(numbers, starts, c.cells, &mut kinds);
    fill_starts(starts, c.cells + 1, &mut begins);
    let listed = fill_list(numbers, starts, c.cells, &mut list);
    fill_nets(numbers, starts, c.cells + c.pins, c.nets, &mut nets);
    let cells = c.cells as usize;
    let pins = c.pins as usize;
    let count = c.nets as usize;
    let pin_lines = word_at(starts, cells) as usize;
    let split_lines = word_at(starts, cells + pins + count) as usize;
    let n = NetlistTables {
        kinds: first(&kinds, cells),
        starts: first(&begins, cells + 1),
        list: first(&list, listed),
        pins: first(behind(numbers, pin_lines), 5 * pins),
        nets: first(&nets, count),
    };
    put_built(out, c, n, behind(first(numbers, total), split_lines))
}

// The end of the line on a broken line: what is wrong with it, in words.
fn put_words(out: &mut [u8], at: usize, fault: Fault) -> usize
    ensures { Printed out.old at (wrong_bytes fault) out.new result }
{
    match fault {
        Fault::NotRecord => put_bytes(out, at, b"\tnot cell, pin, net or split\n"),
        Fault::OutOfOrder => put_bytes(out, at, b"\tout of order\n"),
        Fault::NotNumber => put_bytes(out, at, b"\tnot a number\n"),
        Fault::WrongNumbers => put_bytes(out, at, b"\twrong numbers\n"),
    }
}

// The answer to a broken line.
fn put_broken(out: &mut [u8], line: u32, fault: Fault) -> usize
    ensures { Printed out.old 0 (broken_bytes line fault) out.new result }
{
    let a = put_bytes(out, 0, b"refused");
    let b = put_field(out, a, 17);
    let c = put_field(out, b, line);
    put_words(out, c, fault)
}

// A text has at most as many lines and numbers as bytes.
fn within(n: usize) -> u32
    ensures { result ≡ min n 262144 }
{
    n.min(262144) as u32
}

// The answer to a text that is not accepted.
fn put_refused(out: &mut [u8], refusal: TextRefusal) -> usize
    ensures { Printed out.old 0 (refused_bytes refusal) out.new result }
{
    match refusal {
        TextRefusal::Bounds => put_refusal(out, Refusal::Bounds),
        TextRefusal::Broken { line, fault } => put_broken(out, within(line), fault),
    }
}

fn netlist_counts(r: Reading) -> NetlistCounts
    requires { (r.cells ≤ 512) × ((r.pins ≤ 512) × (r.nets ≤ 512)) }
    ensures { (result.cells ≤ 512) × (result.pins ≤ 512) }
{
    NetlistCounts {
        cells: r.cells as u32,
        pins: r.pins as u32,
        nets: r.nets as u32,
    }
}

// A text's answer.
pub fn answer(text: &[u8], out: &mut [u8]) -> usize {
    let mut numbers = [0u32; 131072];
    let mut starts = [0u32; 65536];
    match accepted(read(text, &mut numbers, &mut starts)) {
        Ok(r) => {
            put_word(&mut starts, r.lines, within(r.numbers));
            put_tables(out, netlist_counts(r), r.numbers, &numbers, &starts)
        }
        Err(refusal) => put_refused(out, refusal),
    }
}

// Prints a text's answer.
pub fn print_answer(rt: &impl Print, text: &[u8]) -> io::Result<()> {
    let mut out = [0; 262144];
    let n = answer(text, &mut out);
    if n <= out.len() {
        rt.write_all(&out[..n])?;
    }
    Ok(())
}
