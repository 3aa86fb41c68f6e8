// Reads the netlist text. specs/Reading.antt says which texts are accepted and what is read of them.
#![tactic(auto)]

ghost use Rattle.std.specs.Prelude.{◌≡◌, ◌+◌, ◌<◌, ◌≤◌, length, set, get_or};
ghost use Rattle.texts.specs.Text.{number_of, digits};
ghost use Rattle.texts.specs.Reading.{sort_of, shaped, counted, broken, begun};
ghost use Rattle.texts.specs.Meanings.{Until, FieldRead, Taking, Fits, Placed, Line, Text, fields_from};

// The sort of a record, in the order in which the sorts stand.
#[derive(Clone, Copy, PartialEq, Eq, PartialOrd, Ord)]
pub enum Sort {
    Cell,
    Pin,
    Net,
    Split,
}

// What was read of a text: how many lines, the broken one included; how many numbers; the sort of the latest record; and how
// many records of each sort.
#[derive(Clone, Copy)]
pub struct Reading {
    pub lines: usize,
    pub numbers: usize,
    pub latest: Sort,
    pub cells: usize,
    pub pins: usize,
    pub nets: usize,
    pub splits: usize,
}

// What is wrong with a line.
#[derive(Clone, Copy)]
pub enum Fault {
    NotRecord,
    OutOfOrder,
    NotNumber,
    WrongNumbers,
}

// Why a text is not accepted: it is too long to be read; or a line is broken, with what was read up to it.
#[derive(Clone, Copy)]
pub enum BrokenText {
    TooLong,
    Line(Reading, Fault),
}

// The number that a field is, if it is one, and where the next field begins.
#[derive(Drop)]
struct Field {
    number: Option<u32>,
    next: usize,
}

// How many numbers were taken, and the first of them.
#[derive(Drop)]
struct Taken {
    count: usize,
    first: u32,
}

// Where the first byte `stop` stands from a place on, or the end.
pub fn until(s: &[u8], at: usize, stop: u8) -> usize
    requires { at ≤ length s.now }
    ensures { Until s.now at stop result }
{
    for i in at..s.len() {
        if s[i] == stop {
            return i;
        }
    }
    s.len()
}

// The number that the digits of a field stand for.
fn value_of(s: &[u8]) -> Option<u32>
    ensures { result ≡ digits 0 s.now }
{
    let mut v = 0u32;
    for &b in s {
        if b < b'0' || b'9' < b {
            return None;
        }
        let w = 10 * u64::from(v) + u64::from(b - b'0');
        if 4294967295 < w {
            return None;
        }
        v = w as u32;
    }
    Some(v)
}

// The number that a field is.
pub fn number(s: &[u8]) -> Option<u32>
    ensures { result ≡ number_of s.now }
{
    if s.is_empty() {
        return None;
    }
    if 1 < s.len() && s[0] == b'0' {
        return None;
    }
    value_of(s)
}

// The sort of the record that a word begins.
pub fn sort_of(word: &[u8]) -> Option<Sort>
    ensures { result ≡ sort_of word.now }
{
    if word == b"cell".as_slice() {
        Some(Sort::Cell)
    } else if word == b"pin".as_slice() {
        Some(Sort::Pin)
    } else if word == b"net".as_slice() {
        Some(Sort::Net)
    } else if word == b"split".as_slice() {
        Some(Sort::Split)
    } else {
        None
    }
}

// The word of a table at a place, 0 past its end.
pub fn word_at(t: &[u32], i: usize) -> u32
    ensures { result ≡ get_or t.now i 0 }
{
    t.get(i).copied().unwrap_or(0)
}

// Stores a word, where the table reaches so far.
pub fn put_word(t: &mut [u32], i: usize, v: u32)
    ensures { t.new ≡ set t.old i v }
{
    if i < t.len() {
        t[i] = v;
    }
}

// The field that begins at a place.
fn field_at(line: &[u8], at: usize) -> Field
    requires { at ≤ length line.now }
    ensures { FieldRead line.now at result.number result.next }
{
    let e = until(line, at, b'\t');
    let number = number(&line[at..e]);
    Field {
        number,
        next: e + 1,
    }
}

// Stores the numbers of the fields from a place on. Where a field is none, answers how many stand before it.
fn take_numbers(line: &[u8], at: usize, out: &mut [u32], base: usize) -> Result<Taken, usize>
    requires line_bound { base + length line.now < 4294967296 }
    requires at_in_bounds { at ≤ length line.now + 1 }
    ensures { Taking line.now at out.old base out.new result }
{
    let mut a = at;
    let mut count = 0;
    let mut first = 0u32;
    while a <= line.len() {
        let field = field_at(line, a);
        let Some(v) = field.number else {
            return Err(count);
        };
        put_word(out, base + count, v);
        if count == 0 {
            first = v;
        }
        count += 1;
        a = field.next;
    }
    Ok(Taken { count, first })
}

// Has a record of a sort this many numbers, the first of which is `first`?
pub fn is_shaped(sort: Sort, n: usize, first: u32) -> bool
    ensures { result ≡ shaped sort n first }
{
    match sort {
        Sort::Cell => 1 <= n,
        Sort::Pin => n == 5,
        Sort::Net => {
            if first <= 1 {
                return n == 1;
            }
            first == 2 && n == 2
        }
        Sort::Split => n == 1,
    }
}

// A line more that is broken, and one that is a record.
fn broken(r: Reading, n: usize, fault: Fault) -> BrokenText
    requires { Fits r n }
    ensures { result ≡ broken r n fault }
{
    let reading = Reading {
        lines: r.lines + 1,
        numbers: r.numbers + n,
        ..r
    };
    BrokenText::Line(reading, fault)
}

fn counted(r: Reading, n: usize, sort: Sort) -> Reading
    requires { Fits r n }
    ensures { result ≡ counted r n sort }
{
    let more = Reading {
        lines: r.lines + 1,
        numbers: r.numbers + n,
        latest: sort,
        ..r
    };
    match sort {
        Sort::Cell => Reading {
            cells: r.cells + 1,
            ..more
        },
        Sort::Pin => Reading {
            pins: r.pins + 1,
            ..more
        },
        Sort::Net => Reading {
            nets: r.nets + 1,
            ..more
        },
        Sort::Split => Reading {
            splits: r.splits + 1,
            ..more
        },
    }
}

// The fields behind the word of a record.
fn placed(
    s: &[u8],
    at: usize,
    sort: Sort,
    r: Reading,
    numbers: &mut [u32],
    starts: &mut [u32],
) -> Result<Reading, BrokenText>
    requires fits { Fits r (length s.now) }
    requires at_nonzero { (0 < at) × (at ≤ length s.now + 1) }
    ensures { Placed r sort (fields_from s.now at) numbers.old starts.old result numbers.new starts.new (length s.now) }
{
    put_word(starts, r.lines, r.numbers as u32);
    match take_numbers(s, at, numbers, r.numbers) {
        Ok(t) => {
            if !is_shaped(sort, t.count, t.first) {
                return Err(broken(r, t.count, Fault::WrongNumbers));
            }
            Ok(counted(r, t.count, sort))
        }
        Err(n) => Err(broken(r, n, Fault::NotNumber)),
    }
}

// A line.
fn line(
    s: &[u8],
    r: Reading,
    numbers: &mut [u32],
    starts: &mut [u32],
) -> Result<Reading, BrokenText>
    requires { Fits r (length s.now + 1) }
    ensures { Line s.now r numbers.old starts.old result numbers.new starts.new }
{
    let e = until(s, 0, b'\t');
    let Some(sort) = sort_of(&s[..e]) else {
        return Err(broken(r, 0, Fault::NotRecord));
    };
    if sort < r.latest {
        return Err(broken(r, 0, Fault::OutOfOrder));
    }
    placed(s, e + 1, sort, r, numbers, starts)
}

fn begin() -> Reading
    ensures { result ≡ begun }
{
    Reading {
        lines: 0,
        numbers: 0,
        latest: Sort::Cell,
        cells: 0,
        pins: 0,
        nets: 0,
        splits: 0,
    }
}

// All lines, up to the first that is broken.
fn read_lines(text: &[u8], numbers: &mut [u32], starts: &mut [u32]) -> Result<Reading, BrokenText>
    requires { length text.now ≤ 262144 }
    ensures { Text text.now numbers.old starts.old result numbers.new starts.new }
{
    let mut r = begin();
    let mut at = 0;
    while at < text.len() {
        let e = until(text, at, b'\n');
        r = line(&text[at..e], r, numbers, starts)?;
        at = e + 1;
    }
    Ok(r)
}

// Reads a text.
pub fn read(text: &[u8], numbers: &mut [u32], starts: &mut [u32]) -> Result<Reading, BrokenText>
    ensures { Text text.now numbers.old starts.old result numbers.new starts.new }
{
    if 262144 < text.len() {
        return Err(BrokenText::TooLong);
    }
    read_lines(text, numbers, starts)
}
