// The netlist tables of a text that was read. specs/Sheets.antt says what each holds.
#![tactic(auto)]

ghost use Rattle.std.specs.Prelude.{◌≡◌, ◌+◌, ◌-◌, ◌<◌, ◌≤◌, length, get_or};
ghost use Rattle.texts.specs.Text.{stored};
ghost use Rattle.sheets.specs.Sheets.{kinds_from, starts_from, list_from, net_word, nets_from, Accepted, Copied};

use texts::{BrokenText, Fault, Reading, put_word, word_at};

// Why a text is refused before document 01's tests: it is too large, or a line of it is broken.
#[derive(Clone, Copy)]
pub enum TextRefusal {
    Bounds,
    Broken { line: usize, fault: Fault },
}

// The kinds of n cells.
pub fn fill_kinds(ns: &[u32], ss: &[u32], n: u32, out: &mut [u32])
    ensures { out.new ≡ stored out.old 0 (kinds_from ns.now ss.now n) }
{
    for i in 0..n {
        let s = word_at(ss, i as usize);
        let v = word_at(ns, s as usize);
        put_word(out, i as usize, v);
    }
}

// Where the lists of n cells begin.
pub fn fill_starts(ss: &[u32], n: u32, out: &mut [u32])
    ensures { out.new ≡ stored out.old 0 (starts_from ss.now n) }
{
    for i in 0..n {
        let s = word_at(ss, i as usize);
        put_word(out, i as usize, s.saturating_sub(i));
    }
}

// Stores k words of a table from a place on. Answers the place behind them.
fn copy_words(ns: &[u32], a: usize, k: u32, out: &mut [u32], at: usize) -> usize
    requires a_bound { a < 8589934592 }
    requires at_bound { at < 18446744065119617025 }
    ensures { Copied ns.now a k out.old at out.new result }
{
    let k = k as usize;
    for i in 0..k {
        let v = word_at(ns, a + i);
        put_word(out, at + i, v);
    }
    at + k
}

// How many pins the line of cell i names.
fn pins_of(ss: &[u32], i: u32) -> u32
    ensures { result ≡ get_or ss.now (i + 1) 0 - (get_or ss.now i 0 + 1) }
{
    let s = word_at(ss, i as usize);
    let e = word_at(ss, i as usize + 1);
    e.saturating_sub(s).saturating_sub(1)
}

// The lists of n cells, one after the other. Answers how many pins they have.
pub fn fill_list(ns: &[u32], ss: &[u32], n: u32, out: &mut [u32]) -> usize
    ensures { (out.new ≡ stored out.old 0 (list_from ns.now ss.now n)) × (result ≡ length (list_from ns.now ss.now n)) }
{
    let mut p = 0usize;
    for i in 0..n {
        let s = word_at(ss, i as usize);
        let k = pins_of(ss, i);
        p = copy_words(ns, (s as usize) + 1, k, out, p);
    }
    p
}

fn net_word(k: u32, p: u32) -> u32
    ensures { result ≡ net_word k p }
{
    if k <= 1 { k } else { p.saturating_add(2) }
}

// The nets of n lines from one on.
pub fn fill_nets(ns: &[u32], ss: &[u32], first: u32, n: u32, out: &mut [u32])
    ensures { out.new ≡ stored out.old 0 (nets_from ns.now ss.now first n) }
{
    let f = first as usize;
    for i in 0..n {
        let s = word_at(ss, f + i as usize) as usize;
        let k = word_at(ns, s);
        let p = word_at(ns, s + 1);
        let v = net_word(k, p);
        put_word(out, i as usize, v);
    }
}

// The reading of a text that goes on to document 01's tests, or why it does not.
pub fn accepted(read: Result<Reading, BrokenText>) -> Result<Reading, TextRefusal>
    ensures { Accepted read result }
{
    match read {
        Ok(r) => {
            if 512 < r.cells || 512 < r.pins || 512 < r.nets {
                return Err(TextRefusal::Bounds);
            }
            Ok(r)
        }
        Err(BrokenText::TooLong) => Err(TextRefusal::Bounds),
        Err(BrokenText::Line(r, fault)) => Err(TextRefusal::Broken {
            line: r.lines,
            fault,
        }),
    }
}
