// The graph check: what refusal 12 asks of records, outputs and their literals, in linear time.
#![tactic(auto)]

ghost use Rattle.std.specs.Prelude.{◌≡◌, true, ◌&&◌, ◌+◌, ◌*◌, ◌≤◌, length, ◌==◌};
ghost use Rattle.laws.specs.Tests.{◌≤?◌, same};
ghost use Rattle.marks.specs.Marking.{Clear, MarkedAll};
ghost use Rattle.rules.specs.Refusals.{drivers_fit};
ghost use Rattle.rules.specs.Tables.{words_in};
ghost use Rattle.graphs.specs.Parts.{dff_pins_in, ram_pins_in, Presented, pins_fit, dff_literals_fit, ram_row_fits, ram_literals_fit, marks_match, Compared, RowsIn, dffs_match, rams_match, pins_match_in, literals_fit_in, records_fit_in, FittingIn};
ghost use Rattle.laws.specs.Words.{zeros};
ghost use Rattle.rules.specs.Bounds.{graph_within, stage_work};
ghost use Rattle.rules.specs.Answers.{endpoints, graph_long, graph_fits, graph_number, check_graph_number, done_of};

use marks::{mark_list, mark_new};
use rules::{EndTables, GraphCounts, GraphTables, Literal, Refusal};
use walk::fit::check_drivers;
use words::zero;

// The pins of the flip-flop records are marked. No where one is out of range or repeats.
fn mark_dffs(dffs: &[u32], n: usize, work: &mut [u32], base: usize, limit: usize) -> bool
    requires clear { Clear work.old base limit }
    requires n_in_bounds { 3 * n ≤ length dffs.now }
    ensures { MarkedAll (dff_pins_in dffs.now n) work.old base limit work.new result }
{
    for k in 0..n {
        if !mark_new(work, base, limit, dffs[3 * k + 2]) {
            return false;
        }
    }
    true
}

// A read-data pin is marked where there is one; 0 is absent.
fn mark_present(work: &mut [u32], base: usize, limit: usize, p: u32) -> bool
    requires { base + limit ≤ length work.old }
    ensures { Presented work.old base limit p work.new result }
{
    p == 0 || mark_new(work, base, limit, p)
}

// The read-data pins of the RAM records are marked, 32 of each.
fn mark_rams(rams: &[u32], n: usize, work: &mut [u32], base: usize, limit: usize) -> bool
    requires clear { Clear work.old base limit }
    requires n_in_bounds { 123 * n ≤ length rams.now }
    requires n_bound { n ≤ 1048576 }
    ensures { MarkedAll (ram_pins_in rams.now n) work.old base limit work.new result }
{
    for i in 0..32 * n {
        if !mark_present(work, base, limit, rams[123 * (i / 32) + 14 + i % 32]) {
            return false;
        }
    }
    true
}

// A mark is there exactly where the driver has the tag.
fn agrees(mark: u32, driver: u32, tag: u32) -> bool
    ensures { result ≡ same (mark == 1) (driver == tag) }
{
    (mark == 1) == (driver == tag)
}

// Whether the marked pins are exactly those whose drivers have this tag.
fn marks_match(drivers: &[u32], work: &[u32], base: usize, m: usize, tag: u32) -> bool
    requires m_in_bounds { 3 * m ≤ length drivers.now }
    requires m_in_bounds_2 { base + m ≤ length work.now }
    ensures { result ≡ marks_match drivers.now work.now base m tag }
{
    for u in 0..m {
        if !agrees(work[base + u], drivers[3 * u], tag) {
            return false;
        }
    }
    true
}

// Whether n literals from a place on name pins up to the count.
fn pins_fit(table: &[u32], from: usize, n: usize, pins: u32) -> bool
    requires { «from» + n ≤ length table.now }
    ensures { result ≡ pins_fit table.now «from» n pins }
{
    for i in 0..n {
        let l = Literal {
            word: table[from + i],
        };
        if pins < l.pin() {
            return false;
        }
    }
    true
}

// Next and enable of every flip-flop record.
fn dff_literals_fit(dffs: &[u32], n: usize, pins: u32) -> bool
    requires { 3 * n ≤ length dffs.now }
    ensures { result ≡ dff_literals_fit dffs.now n pins }
{
    for k in 0..n {
        if !pins_fit(dffs, 3 * k, 2, pins) {
            return false;
        }
    }
    true
}

// A RAM's words but its read data: those before, and those behind.
fn ram_row_fits(rams: &[u32], at: usize, pins: u32) -> bool
    requires { at + 123 ≤ length rams.now }
    ensures { result ≡ ram_row_fits rams.now at pins }
{
    pins_fit(rams, at, 14, pins) && pins_fit(rams, at + 46, 77, pins)
}

fn ram_literals_fit(rams: &[u32], n: usize, pins: u32) -> bool
    requires { 123 * n ≤ length rams.now }
    ensures { result ≡ ram_literals_fit rams.now n pins }
{
    for k in 0..n {
        if !ram_row_fits(rams, 123 * k, pins) {
            return false;
        }
    }
    true
}

// Whether the flip-flop records' pins are one for one those with flip-flop drivers.
fn dffs_match(g: GraphTables, work: &mut [u32], base: usize) -> bool
    requires pins_value { drivers_fit g.drivers.now g.ends.counts.pins ≡ true }
    requires rows { RowsIn g }
    requires clear { Clear work.old base (g.ends.counts.pins + 1) }
    ensures { Compared (dffs_match g.entry) work.old base (g.entry.ends.counts.pins + 1) work.new result }
{
    let m = g.ends.counts.pins as usize + 1;
    if !mark_dffs(g.ends.dffs, g.ends.counts.dffs as usize, work, base, m) {
        return false;
    }
    marks_match(g.drivers, work, base, m, 4)
}

// Whether the RAM records' read-data pins are one for one those with RAM drivers.
fn rams_match(g: GraphTables, work: &mut [u32], base: usize) -> bool
    requires pins_value { drivers_fit g.drivers.now g.ends.counts.pins ≡ true }
    requires rows { RowsIn g }
    requires clear { Clear work.old base (g.ends.counts.pins + 1) }
    ensures { Compared (rams_match g.entry) work.old base (g.entry.ends.counts.pins + 1) work.new result }
{
    let m = g.ends.counts.pins as usize + 1;
    if !mark_rams(g.ends.rams, g.ends.counts.rams as usize, work, base, m) {
        return false;
    }
    marks_match(g.drivers, work, base, m, 5)
}

// Both kinds of records.
fn pins_match(g: GraphTables, work: &mut [u32]) -> bool
    requires pins_value { drivers_fit g.drivers.now g.ends.counts.pins ≡ true }
    requires rows { RowsIn g }
    requires clear { Clear work.old 0 (2 * (g.ends.counts.pins + 1)) }
    ensures { Compared (pins_match_in g.entry) work.old 0 (2 * (g.entry.ends.counts.pins + 1)) work.new result }
{
    if !dffs_match(g, work, 0) {
        return false;
    }
    rams_match(g, work, g.ends.counts.pins as usize + 1)
}

// The literals of outputs, none of which repeats, and of the records.
fn literals_fit(e: EndTables, work: &mut [u32]) -> bool
    requires clear { Clear work.old (2 * (e.counts.pins + 1)) (2 * (e.counts.pins + 1)) }
    requires dffs_long { 3 * e.counts.dffs ≤ length e.dffs.now }
    requires rams_long { 123 * e.counts.rams ≤ length e.rams.now }
    ensures { result ≡ literals_fit_in e.entry }
{
    let c = e.counts;
    let m = 2 * (c.pins as usize + 1);
    if !mark_list(e.outputs, work, m, m) {
        return false;
    }
    if !dff_literals_fit(e.dffs, c.dffs as usize, c.pins) {
        return false;
    }
    ram_literals_fit(e.rams, c.rams as usize, c.pins)
}

// What 12 says of records, outputs and literals, of a graph whose drivers fit.
fn records_fit(g: GraphTables, work: &mut [u32]) -> bool
    requires pins_value { drivers_fit g.drivers.now g.ends.counts.pins ≡ true }
    requires rows { RowsIn g }
    requires clear { Clear work.old 0 (4 * (g.ends.counts.pins + 1)) }
    ensures { result ≡ records_fit_in g.entry }
{
    if !pins_match(g, work) {
        return false;
    }
    literals_fit(g.ends, work)
}

// 1: counts within their bounds.
fn graph_within(c: GraphCounts) -> bool
    ensures { result ≡ graph_within c }
{
    c.pins <= 16777215 && c.outputs <= 1048576 && c.dffs <= 1048576 && c.rams <= 1048576
}

// 2: tables of the lengths of their counts, and work words enough.
fn graph_long(g: GraphTables, work: usize) -> bool
    ensures { result ≡ (graph_long g.entry.ends.counts (words_in g.entry) && (stage_work g.entry.ends.counts.pins (endpoints g.entry.ends.counts) ≤? work)) }
{
    let p = g.ends.counts.pins as usize;
    let o = g.ends.counts.outputs as usize;
    let f = g.ends.counts.dffs as usize;
    let k = g.ends.counts.rams as usize;
    g.drivers.len() == 3 * (p + 1)
        && g.ends.outputs.len() == o
        && g.ends.dffs.len() == 3 * f
        && g.ends.rams.len() == 123 * k
        && 12 * p + 4 * (o + f + k) + 64 <= work
}

// 12 whole.
fn graph_fits(g: GraphTables, work: &mut [u32]) -> bool
    requires { FittingIn g work.old }
    ensures { result ≡ graph_fits g.entry.ends.counts (words_in g.entry) }
{
    if !check_drivers(g.drivers, g.ends.counts.pins as usize) {
        return false;
    }
    records_fit(g, work)
}

// 1, 2 and 12 of a call on a whole graph; counts and lengths say whether what else is lent passes 1 and 2.
pub fn test_graph(
    g: GraphTables,
    work: &mut [u32],
    counts: bool,
    lengths: bool,
) -> Result<(), Refusal>
    requires { work.old ≡ zeros (length work.old) }
    ensures { result ≡ done_of (graph_number g.entry.ends.counts (words_in g.entry) (length work.old) counts lengths) }
{
    if !graph_within(g.ends.counts) {
        return Err(Refusal::Bounds);
    }
    if !counts {
        return Err(Refusal::Bounds);
    }
    if !graph_long(g, work.len()) {
        return Err(Refusal::Lengths);
    }
    if !lengths {
        return Err(Refusal::Lengths);
    }
    if !graph_fits(g, work) {
        return Err(Refusal::Graph);
    }
    Ok(())
}

// The graph check.
pub fn check_graph(g: GraphTables, work: &mut [u32]) -> Result<(), Refusal>
    ensures { (result ≡ done_of (check_graph_number g.entry.ends.counts (words_in g.entry) (length work.old))) × (work.new ≡ zeros (length work.old)) }
{
    zero(work);
    let tested = test_graph(g, work, true, true);
    zero(work);
    tested
}
