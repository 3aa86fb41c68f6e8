// Prints the answer text into a lent buffer, from a place on, as far as the buffer reaches. specs/ says what each line is.
#![tactic(auto)]

ghost use Rattle.std.specs.Prelude.{◌≡◌, [], ◌∷◌, ◌+◌, ◌-◌, ◌≤◌, ◌<◌, length, get_or, take, drop, if◌then◌else◌};
ghost use Rattle.laws.specs.Tests.{◌≤?◌};
ghost use Rattle.laws.specs.Words.{part};
ghost use Rattle.answers.specs.Printing.{Printed, digit_at, decimal, field_bytes, fields_bytes, line_bytes, rows_bytes, numbered_bytes};
ghost use Rattle.answers.specs.Answer.{flag_bytes, source_bytes, driver_bytes, driver_at, drivers_bytes, ends_bytes, stage_at, stages_bytes};

use texts::word_at;

fn put_byte(out: &mut [u8], at: usize, b: u8) -> usize
    ensures { Printed out.old at (b ∷ []) out.new result }
{
    if at < out.len() {
        out[at] = b;
        return at + 1;
    }
    at
}

// Bytes as they are.
pub fn put_bytes(out: &mut [u8], at: usize, w: &[u8]) -> usize
    ensures { Printed out.old at w.now out.new result }
{
    let mut a = at;
    for &b in w {
        a = put_byte(out, a, b);
    }
    a
}

fn digit_byte(d: u32) -> u8
    requires { d < 10 }
    ensures { result ≡ 48 + d }
{
    b'0' + d as u8
}

// The digit of n at the power p, where it counts.
fn put_digit(out: &mut [u8], at: usize, p: u32, n: u32) -> usize
    ensures { Printed out.old at (digit_at p n) out.new result }
{
    if p == 0 {
        return at;
    }
    if p == 1 || p <= n {
        return put_byte(out, at, digit_byte(n / p % 10));
    }
    at
}

// A number in decimal.
pub fn put_number(out: &mut [u8], at: usize, n: u32) -> usize
    ensures { Printed out.old at (decimal n) out.new result }
{
    let mut a = at;
    let mut p = 1000000000u32;
    for _ in 0..10u32 {
        a = put_digit(out, a, p, n);
        p /= 10;
    }
    a
}

// A tab and a number.
pub fn put_field(out: &mut [u8], at: usize, n: u32) -> usize
    ensures { Printed out.old at (field_bytes n) out.new result }
{
    let a = put_byte(out, at, b'\t');
    put_number(out, a, n)
}

// A tab and a number for each word.
pub fn put_fields(out: &mut [u8], at: usize, ns: &[u32]) -> usize
    ensures { Printed out.old at (fields_bytes ns.now) out.new result }
{
    let mut a = at;
    for &n in ns {
        a = put_field(out, a, n);
    }
    a
}

// A line: a word, and numbers behind it.
pub fn put_line(out: &mut [u8], at: usize, label: &[u8], ns: &[u32]) -> usize
    ensures { Printed out.old at (line_bytes label.now ns.now) out.new result }
{
    let a = put_bytes(out, at, label);
    let b = put_fields(out, a, ns);
    put_byte(out, b, b'\n')
}

// A line of n words of a table from a place on, or of as many as there are.
pub fn put_part(out: &mut [u8], at: usize, label: &[u8], ns: &[u32], from: usize, n: usize) -> usize
    ensures { Printed out.old at (line_bytes label.now (part ns.now «from» n)) out.new result }
{
    let f = from.min(ns.len());
    let m = n.min(ns.len() - f);
    put_line(out, at, label, &ns[f..f + m])
}

// n lines of `width` words each.
pub fn put_rows(out: &mut [u8], at: usize, label: &[u8], ns: &[u32], width: u32, n: u32) -> usize
    ensures { Printed out.old at (rows_bytes label.now width n ns.now) out.new result }
{
    let w = width as usize;
    let mut a = at;
    let mut from = 0;
    for _ in 0..n {
        a = put_part(out, a, label, ns, from, w);
        from = (from + w).min(ns.len());
    }
    a
}

// n lines from 0 on, each a number and the word of a table at it.
pub fn put_numbered(out: &mut [u8], at: usize, label: &[u8], ns: &[u32], n: u32) -> usize
    ensures { Printed out.old at (numbered_bytes label.now ns.now 0 n) out.new result }
{
    let mut a = at;
    for i in 0..n {
        let v = word_at(ns, i as usize);
        a = put_line(out, a, label, &[i, v]);
    }
    a
}

// A clock flag behind `driver PIN`.
fn put_flag(out: &mut [u8], at: usize, a: u32, b: u32) -> usize
    ensures { Printed out.old at (flag_bytes a b) out.new result }
{
    let p = put_bytes(out, at, b"flag");
    let q = put_field(out, p, a);
    if b == 0 {
        put_bytes(out, q, b"\trising\n")
    } else {
        put_bytes(out, q, b"\tfalling\n")
    }
}

// What drives a pin, behind `driver PIN`.
fn put_source(out: &mut [u8], at: usize, tag: u32, a: u32, b: u32) -> usize
    ensures { Printed out.old at (source_bytes tag a b) out.new result }
{
    match tag {
        0 => put_line(out, at, b"const", &[]),
        1 => put_line(out, at, b"and", &[a, b]),
        2 => put_line(out, at, b"port", &[a]),
        3 => put_flag(out, at, a, b),
        4 => put_line(out, at, b"dff", &[a]),
        _ => put_line(out, at, b"ram", &[a]),
    }
}

fn put_driver(out: &mut [u8], at: usize, i: u32, tag: u32, a: u32, b: u32) -> usize
    ensures { Printed out.old at (driver_bytes i tag a b) out.new result }
{
    let p = put_bytes(out, at, b"driver");
    let q = put_field(out, p, i);
    let s = put_byte(out, q, b'\t');
    put_source(out, s, tag, a, b)
}

// The driver of pin i.
fn put_driver_at(out: &mut [u8], at: usize, ds: &[u32], i: u32) -> usize
    ensures { Printed out.old at (driver_at ds.now i) out.new result }
{
    let k = 3 * (i as usize);
    let tag = word_at(ds, k);
    let a = word_at(ds, k + 1);
    let b = word_at(ds, k + 2);
    put_driver(out, at, i, tag, a, b)
}

// The drivers of n pins, from pin 0 on.
pub fn put_drivers(out: &mut [u8], at: usize, ds: &[u32], n: u32) -> usize
    ensures { Printed out.old at (drivers_bytes ds.now 0 n) out.new result }
{
    let mut p = at;
    for i in 0..n {
        p = put_driver_at(out, p, ds, i);
    }
    p
}

fn put_ends(out: &mut [u8], at: usize, lower: u32, upper: u32) -> usize
    ensures { Printed out.old at (ends_bytes lower upper) out.new result }
{
    if upper == u32::MAX {
        let p = put_bytes(out, at, b"stage");
        let q = put_field(out, p, lower);
        return put_bytes(out, q, b"\tend\n");
    }
    put_line(out, at, b"stage", &[lower, upper])
}

// Where the stages have come to: a row, and how many pins were handed on and endpoints taken before it.
#[derive(Drop)]
struct Row {
    i: u32,
    handed: usize,
    taken: usize,
}

// A stage: its ends, what it hands on and what it takes.
fn put_stage(
    out: &mut [u8],
    at: usize,
    rows: &[u32],
    handed: &[u32],
    taken: &[u32],
    row: Row,
) -> usize
    ensures { Printed out.old at (stage_at rows.now handed.now taken.now row.i row.handed row.taken) out.new result }
{
    let i = row.i;
    let k = 4 * (i as usize);
    let lower = word_at(rows, k);
    let upper = word_at(rows, k + 1);
    let h = word_at(rows, k + 2);
    let t = word_at(rows, k + 3);
    let p = put_ends(out, at, lower, upper);
    let q = put_part(out, p, b"hand", handed, row.handed, h as usize);
    put_part(out, q, b"ends", taken, row.taken, t as usize)
}

// n stages.
pub fn put_stages(
    out: &mut [u8],
    at: usize,
    rows: &[u32],
    handed: &[u32],
    taken: &[u32],
    n: u32,
) -> usize
    ensures { Printed out.old at (stages_bytes rows.now handed.now taken.now 0 0 0 n) out.new result }
{
    let mut p = at;
    let mut h = 0usize;
    let mut t = 0usize;
    for i in 0..n {
        let row = Row {
            i,
            handed: h,
            taken: t,
        };
        p = put_stage(out, p, rows, handed, taken, row);
        let k = 4 * (i as usize);
        h += word_at(rows, k + 2) as usize;
        t += word_at(rows, k + 3) as usize;
    }
    p
}
