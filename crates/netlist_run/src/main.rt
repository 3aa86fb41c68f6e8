// Runs recorded netlists, most of them broken, through check_netlist and check_all, in work words that start full of other words,
// and compares with what the oracle's model says of them. Prints each case that is answered otherwise, and then how often each
// number was answered, from 0 to 10.
//
// The text on standard input is numbers, each with one byte behind it. First comes how many records follow. A record `0 PLACE
// COUNT WORD..` writes words of the netlist at hand. A record `1 NINE TEN COUNT` and then COUNT times `PLACE WORD` is a case: the
// netlist at hand with these words changed, and the answers that are expected of the two calls. The words of a netlist: the
// counts of cells, pins and nets from 0; the lengths of kinds, starts, list, pins, nets and work from 3; kinds from 16, starts
// from 272, list from 544, pins from 1056, nets from 3616.
#![tactic(auto)]

ghost use Rattle.std.specs.Prelude.{◌≡◌, ◌<◌, ◌≤◌, length};

use checks::{check_all, check_netlist};
use prints::{print_words, read_full};
use rules::{NetlistCounts, NetlistTables};
use std::io;

// A number of the text, and where the text goes on.
#[derive(Drop)]
struct Token {
    value: u32,
    next: usize,
}

fn digit(byte: u8) -> u64
    ensures { result < 16 }
{
    (byte % 16) as u64
}

fn low(value: u64) -> u32 {
    (value % 4294967296) as u32
}

// The digits from a place on, up to the byte behind them.
fn number(text: &[u8], at: usize) -> Token {
    let mut value = 0u64;
    for i in at..text.len() {
        let byte = text[i];
        if byte < 48 {
            return Token {
                value: low(value),
                next: i + 1,
            };
        }
        value = value % 1000000000 * 10 + digit(byte);
    }
    Token {
        value: low(value),
        next: text.len(),
    }
}

fn at_most(n: u32, most: usize) -> usize
    ensures { result ≤ most }
{
    most.min(n as usize)
}

fn put(words: &mut [u32], place: usize, word: u32) {
    if place < words.len() {
        words[place] = word;
    }
}

// Writes the words of a record. Answers where the text goes on.
fn write_words(text: &[u8], at: usize, words: &mut [u32]) -> usize {
    let first = number(text, at);
    let count = number(text, first.next);
    let place = at_most(first.value, 4128);
    let n = at_most(count.value, 4128);
    let mut next = count.next;
    for i in 0..n {
        let word = number(text, next);
        put(words, place + i, word.value);
        next = word.next;
    }
    next
}

// Changes the words that a case names. Answers where the text goes on.
fn change_words(text: &[u8], at: usize, words: &mut [u32]) -> usize {
    let count = number(text, at);
    let mut next = count.next;
    for _ in 0..count.value {
        let place = number(text, next);
        let word = number(text, place.next);
        put(words, place.value as usize, word.value);
        next = word.next;
    }
    next
}

fn counts(words: &[u32; 4128]) -> NetlistCounts {
    NetlistCounts {
        cells: words[0],
        pins: words[1],
        nets: words[2],
    }
}

// What a call answers, as its number, 0 where it refuses nothing: check_all, or check_netlist.
fn asked(words: &[u32; 4128], all: bool, work: &mut [u32]) -> u32 {
    let c = counts(words);
    let whole = &words[..];
    let n = NetlistTables {
        kinds: &whole[16..16 + at_most(words[3], 256)],
        starts: &whole[272..272 + at_most(words[4], 272)],
        list: &whole[544..544 + at_most(words[5], 512)],
        pins: &whole[1056..1056 + at_most(words[6], 2560)],
        nets: &whole[3616..3616 + at_most(words[7], 512)],
    };
    let outcome = if all {
        check_all(c, n, work)
    } else {
        check_netlist(c, n, work)
    };
    match outcome {
        Ok(()) => 0,
        Err(refusal) => refusal.number(),
    }
}

// The same, or 99 where the call leaves a work word. A loop of its own, since `all_zero` asks twice as much of each word.
fn asked_cleanly(words: &[u32; 4128], all: bool, work: &mut [u32]) -> u32 {
    let number = asked(words, all, work);
    for &w in &work[..] {
        if w != 0 {
            return 99;
        }
    }
    number
}

// The same in work words that are full of other words.
fn answer(words: &[u32; 4128], all: bool) -> u32 {
    let mut work = [7u32; 5120];
    let n = at_most(words[8], 5120);
    asked_cleanly(words, all, &mut work[..n])
}

// One more answer of this number.
fn tally(seen: &mut [u32; 11], number: u32) {
    let i = number as usize;
    if i < 11 && seen[i] < 1000000 {
        seen[i] += 1;
    }
}

// A call on a netlist, counted and compared.
fn compare(
    rt: &impl Print,
    words: &[u32; 4128],
    all: bool,
    expected: u32,
    at: usize,
    seen: &mut [u32; 11],
) -> io::Result<()> {
    let number = answer(words, all);
    tally(seen, number);
    if number != expected {
        print_words(rt, b"not as expected", &[low(at as u64), expected, number])?;
    }
    Ok(())
}

// A case. Answers where the text goes on.
fn run_case(
    rt: &impl Print,
    text: &[u8],
    at: usize,
    base: &[u32; 4128],
    nine: &mut [u32; 11],
    ten: &mut [u32; 11],
) -> io::Result<usize> {
    let first = number(text, at);
    let second = number(text, first.next);
    let mut words = *base;
    let next = change_words(text, second.next, &mut words);
    compare(rt, &words, false, first.value, at, nine)?;
    compare(rt, &words, true, second.value, at, ten)?;
    Ok(next)
}

// A record. Answers where the text goes on.
fn run_record(
    rt: &impl Print,
    text: &[u8],
    at: usize,
    base: &mut [u32; 4128],
    nine: &mut [u32; 11],
    ten: &mut [u32; 11],
) -> io::Result<usize> {
    let sort = number(text, at);
    if sort.value == 0 {
        return Ok(write_words(text, sort.next, base));
    }
    run_case(rt, text, sort.next, base, nine, ten)
}

fn run_all(
    rt: &impl Print,
    text: &[u8],
    nine: &mut [u32; 11],
    ten: &mut [u32; 11],
) -> io::Result<()> {
    let mut base = [0u32; 4128];
    let records = number(text, 0);
    let mut next = records.next;
    for _ in 0..records.value {
        next = run_record(rt, text, next, &mut base, nine, ten)?;
    }
    Ok(())
}

fn print_tally(rt: &impl Print, label: &[u8], seen: &[u32; 11]) -> io::Result<()> {
    print_words(rt, label, seen)
}

// All records, and how often each number was answered.
fn run(rt: &impl Print, text: &[u8]) -> io::Result<()> {
    let mut nine = [0u32; 11];
    let mut ten = [0u32; 11];
    run_all(rt, text, &mut nine, &mut ten)?;
    print_tally(rt, b"check_netlist", &nine)?;
    print_tally(rt, b"check_all", &ten)
}

fn room() -> [u8; 131072]
    ensures { 131072 ≡ length result }
{
    [0; 131072]
}

fn main(rt: HostRuntime) -> io::Result<()> {
    let mut text = room();
    let mut input = rt.reader();
    let n = read_full(&mut input, &mut text)?;
    run(&rt, &text[..n])
}
