// Runs recorded netlists through from_netlistdb, and compares every word of every result table, the tallies and the work words
// with what the unchanged Rust made of them. Prints the first word that is not as recorded, and then how many netlists and calls
// there were, how many words were compared, and how many of them were wrong.
//
// Each netlist is built in wide rooms, in rooms that are just enough, and, for each room of which something is needed, with that
// one a word short. All tables start full of sevens. The text on standard input is as oracle/replays writes it: a line a netlist,
// in blocks of 16384 bytes. The words of a netlist lie in one buffer: the counts from 0 (cells, pins, nets; graph pins, gates,
// output literals, flip-flops, RAMs, fanouts), kinds from 16, starts from 96, list from 192, pins from 448, nets from 1728; then,
// 1024 words each, drivers from 2048, outputs, dffs, rams, literals, fanout starts and fanouts.
#![tactic(auto)]

ghost use Rattle.std.specs.Prelude.{◌≡◌, ◌<◌, ◌≤◌, length};

use aig::from_netlistdb;
use prints::{print_words, read_full};
use rules::{NetlistCounts, NetlistTables, Refusal, Rooms, Tally};
use std::io::{self, Read};

// A word of the text, how many words it stands for, and where the text goes on.
#[derive(Drop)]
struct Token {
    value: u32,
    times: u32,
    next: usize,
}

// Where a run stands: the netlist and the call at hand, and the words compared and found wrong.
#[derive(Clone, Copy)]
struct Score {
    netlist: u32,
    call: u32,
    calls: u32,
    words: u32,
    wrong: u32,
}

// How many words of each result table are lent.
#[derive(Clone, Copy)]
struct Lengths {
    drivers: usize,
    outputs: usize,
    dffs: usize,
    rams: usize,
    literals: usize,
    starts: usize,
    fanouts: usize,
    work: usize,
}

fn plus(a: u32, b: u32) -> u32 {
    std::num::wrapping_add_u32(a, b)
}

fn at_most(n: u32, most: usize) -> usize
    ensures { result ≤ most }
{
    if most < n as usize {
        return most;
    }
    n as usize
}

// ---- the text
fn wide(byte: u8) -> u32
    ensures { result < 256 }
{
    byte as u32
}

// A character, and # behind the end.
fn byte_at(text: &[u8; 16384], at: usize) -> u32
    ensures { result < 256 }
{
    if at < 16384 {
        return wide(text[at]);
    }
    35
}

fn after(text: &[u8; 16384], at: usize) -> usize {
    if at < 16384 {
        return at + 1;
    }
    at
}

// What a character from # on adds.
fn low(byte: u32) -> u32
    requires { byte < 256 }
    ensures { result < 256 }
{
    if byte < 35 {
        return 0;
    }
    byte - 35
}

// A word that is not in a run.
fn plain(text: &[u8; 16384], at: usize) -> Token {
    let byte = byte_at(text, at);
    let next = after(text, at);
    if byte < 115 {
        return Token {
            value: low(byte),
            times: 1,
            next,
        };
    }
    if byte == 124 {
        return Token {
            value: 4294967294,
            times: 1,
            next,
        };
    }
    if byte == 125 {
        return Token {
            value: 4294967295,
            times: 1,
            next,
        };
    }
    let added = low(byte_at(text, next));
    Token {
        value: 80 + 64 * (byte - 115) + added,
        times: 1,
        next: after(text, next),
    }
}

// A word, or a run of words that are 0.
fn next_word(text: &[u8; 16384], at: usize) -> Token {
    let byte = byte_at(text, at);
    if byte != 126 {
        return plain(text, at);
    }
    let run = plain(text, after(text, at));
    Token {
        value: 0,
        times: run.value,
        next: run.next,
    }
}

// How far a token goes: at least a word.
fn step(times: u32) -> usize
    ensures result_nonzero { 0 < result }
    ensures upper_bound { result ≤ 1280 }
{
    if times == 0 {
        return 1;
    }
    if 1280 < times {
        return 1280;
    }
    times as usize
}

fn put(words: &mut [u32; 9216], place: usize, word: u32) {
    if place < 9216 {
        words[place] = word;
    }
}

// Reads the words of a table, up to the ! behind them, into a buffer that is 0 there. Answers where the text goes on.
fn read_table(text: &[u8; 16384], at: usize, words: &mut [u32; 9216], place: usize) -> usize
    requires { place ≤ 8192 }
{
    let mut next = at;
    let mut i = 0;
    // A run takes i on by several words, so this is no for.
    while i < 1280 {
        if byte_at(text, next) == 33 {
            return after(text, next);
        }
        let word = next_word(text, next);
        put(words, place + i, word.value);
        next = word.next;
        i += step(word.times);
    }
    after(text, next)
}

// Where the words of a table begin: the counts, the netlist's five tables, and the graph's seven.
fn place_of(table: u32) -> usize
    ensures { result ≤ 8192 }
{
    match table {
        0 => 0,
        1 => 16,
        2 => 96,
        3 => 192,
        4 => 448,
        5 => 1728,
        6 => 2048,
        7 => 3072,
        8 => 4096,
        9 => 5120,
        10 => 6144,
        11 => 7168,
        _ => 8192,
    }
}

// Reads a line. Answers where the text goes on.
fn read_line(text: &[u8; 16384], at: usize, words: &mut [u32; 9216]) -> usize {
    let mut next = at;
    for table in 0..13 {
        let place = place_of(table);
        next = read_table(text, next, words, place);
    }
    after(text, next)
}

// ---- rooms
fn needed(words: &[u32; 9216]) -> Rooms {
    Rooms {
        pins: words[3],
        outputs: words[5],
        dffs: words[6],
        rams: words[7],
        fanouts: words[8],
    }
}

fn larger(r: Rooms) -> Rooms {
    Rooms {
        pins: plus(r.pins, 3),
        outputs: plus(r.outputs, 2),
        dffs: plus(r.dffs, 1),
        rams: plus(r.rams, 1),
        fanouts: plus(r.fanouts, 5),
    }
}

// How many words of each table a caller with these rooms lends.
fn lent_words(r: Rooms, pins: u32, spare: u32) -> Lengths
    ensures drivers_bound { result.drivers ≤ 1024 }
    ensures outputs_bound { result.outputs ≤ 1024 }
    ensures dffs_bound { result.dffs ≤ 1024 }
    ensures rams_bound { result.rams ≤ 1024 }
    ensures literals_bound { result.literals ≤ 1024 }
    ensures starts_bound { result.starts ≤ 1024 }
    ensures fanouts_bound { result.fanouts ≤ 1024 }
    ensures work_bound { result.work ≤ 6140 }
{
    let graph = at_most(r.pins, 340);
    let outputs = at_most(r.outputs, 1024);
    let dffs = at_most(r.dffs, 341);
    let rams = at_most(r.rams, 8);
    let fanouts = at_most(r.fanouts, 1024);
    let own = at_most(pins, 256);
    let more = at_most(spare, 256);
    Lengths {
        drivers: 3 * graph + 3,
        outputs,
        dffs: 3 * dffs,
        rams: 123 * rams,
        literals: own,
        starts: graph + 2,
        fanouts,
        work: 8 * own + 8 * graph + 1024 + more,
    }
}

// ---- a call
fn counts(words: &[u32; 9216]) -> NetlistCounts {
    NetlistCounts {
        cells: words[0],
        pins: words[1],
        nets: words[2],
    }
}

// A table that is full of other words.
fn full() -> [u32; 6144]
    ensures { 6144 ≡ length result }
{
    [7; 6144]
}

// ---- comparing
fn call_told(score: Score, call: u32) -> Score {
    Score {
        call,
        calls: plus(score.calls, 1),
        ..score
    }
}

fn counted(score: Score, wrong: u32) -> Score {
    Score {
        words: plus(score.words, 1),
        wrong: plus(score.wrong, wrong),
        ..score
    }
}

fn print_first(
    rt: &impl Print,
    score: Score,
    table: u32,
    place: u32,
    recorded: u32,
    found: u32,
) -> io::Result<()> {
    if score.wrong == 0 {
        print_words(
            rt,
            b"first wrong (netlist, call, table, place, recorded, found):",
            &[score.netlist, score.call, table, place, recorded, found],
        )?;
    }
    Ok(())
}

// A word compared. The first that is wrong is named.
fn word_told(
    rt: &impl Print,
    score: Score,
    table: u32,
    place: u32,
    recorded: u32,
    found: u32,
) -> io::Result<Score> {
    if recorded == found {
        return Ok(counted(score, 0));
    }
    print_first(rt, score, table, place, recorded, found)?;
    Ok(counted(score, 1))
}

// What a table must hold at a place: the recorded words, then 0 as far as it was lent, then what it was full of.
fn expected(words: &[u32; 9216], from: usize, used: usize, lent: usize, place: usize) -> u32
    requires from_bound { from ≤ 9216 }
    requires place_bound { place < 6144 }
{
    let at = from + place;
    if place < used && at < 9216 {
        return words[at];
    }
    if place < lent {
        return 0;
    }
    7
}

// Four words behind what was lent.
fn end_of(lent: usize) -> usize
    ensures { result ≤ 6144 }
{
    if lent < 6140 {
        return lent + 4;
    }
    6144
}

// A table, word for word, and four words behind what was lent.
fn compare(
    rt: &impl Print,
    score: Score,
    table: u32,
    found: &[u32; 6144],
    lent: usize,
    used: usize,
    words: &[u32; 9216],
) -> io::Result<Score> {
    let from = 2048 + 1024 * at_most(table, 7);
    let end = end_of(lent);
    let mut told = score;
    for place in 0..end {
        let recorded = expected(words, from, used, lent, place);
        told = word_told(rt, told, table, place as u32, recorded, found[place])?;
    }
    Ok(told)
}

// The tallies of a graph: table 8, from 1.
fn tally_told(rt: &impl Print, score: Score, t: Tally, words: &[u32; 9216]) -> io::Result<Score> {
    let a = word_told(rt, score, 8, 1, words[3], t.pins)?;
    let b = word_told(rt, a, 8, 2, words[4], t.gates)?;
    let c = word_told(rt, b, 8, 3, words[5], t.outputs)?;
    let d = word_told(rt, c, 8, 4, words[6], t.dffs)?;
    word_told(rt, d, 8, 5, words[7], t.rams)
}

// The answer: 0 or the number of the refusal, and the tallies.
fn answer_told(
    rt: &impl Print,
    score: Score,
    answer: Result<Tally, Refusal>,
    number: u32,
    words: &[u32; 9216],
) -> io::Result<Score> {
    match answer {
        Ok(t) => {
            let told = word_told(rt, score, 8, 0, number, 0)?;
            tally_told(rt, told, t, words)
        }
        Err(refusal) => word_told(rt, score, 8, 0, number, refusal.number()),
    }
}

// How many words of each table are the graph's: none after a refusal.
fn used_words(words: &[u32; 9216], number: u32) -> Lengths {
    if number == 0 {
        return lent_words(needed(words), words[1], 0);
    }
    Lengths {
        drivers: 0,
        outputs: 0,
        dffs: 0,
        rams: 0,
        literals: 0,
        starts: 0,
        fanouts: 0,
        work: 0,
    }
}

// The answer and all tables.
fn compare_all(
    rt: &impl Print,
    score: Score,
    words: &[u32; 9216],
    number: u32,
    answer: Result<Tally, Refusal>,
    lent: Lengths,
    drivers: &[u32; 6144],
    outputs: &[u32; 6144],
    dffs: &[u32; 6144],
    rams: &[u32; 6144],
    literals: &[u32; 6144],
    fanout_starts: &[u32; 6144],
    fanouts: &[u32; 6144],
    work: &[u32; 6144],
) -> io::Result<Score> {
    let used = used_words(words, number);
    let told = answer_told(rt, score, answer, number, words)?;
    let a = compare(rt, told, 0, drivers, lent.drivers, used.drivers, words)?;
    let b = compare(rt, a, 1, outputs, lent.outputs, used.outputs, words)?;
    let c = compare(rt, b, 2, dffs, lent.dffs, used.dffs, words)?;
    let d = compare(rt, c, 3, rams, lent.rams, used.rams, words)?;
    let e = compare(rt, d, 4, literals, lent.literals, used.literals, words)?;
    let f = compare(rt, e, 5, fanout_starts, lent.starts, used.starts, words)?;
    let g = compare(rt, f, 6, fanouts, lent.fanouts, used.fanouts, words)?;
    compare(rt, g, 7, work, lent.work, 0, words)
}

// A call in these rooms, and all that it answers and leaves.
fn run_call(
    rt: &impl Print,
    words: &[u32; 9216],
    n: NetlistTables,
    rooms: Rooms,
    spare: u32,
    number: u32,
    score: Score,
) -> io::Result<Score> {
    let c = counts(words);
    let long = lent_words(rooms, words[1], spare);
    let mut drivers = full();
    let mut outputs = full();
    let mut dffs = full();
    let mut rams = full();
    let mut literals = full();
    let mut fanout_starts = full();
    let mut fanouts = full();
    let mut work = full();
    let answer = from_netlistdb(
        c,
        rooms,
        n,
        &mut drivers[..long.drivers],
        &mut outputs[..long.outputs],
        &mut dffs[..long.dffs],
        &mut rams[..long.rams],
        &mut literals[..long.literals],
        &mut fanout_starts[..long.starts],
        &mut fanouts[..long.fanouts],
        &mut work[..long.work],
    );
    compare_all(
        rt,
        score,
        words,
        number,
        answer,
        long,
        &drivers,
        &outputs,
        &dffs,
        &rams,
        &literals,
        &fanout_starts,
        &fanouts,
        &work,
    )
}

// ---- the calls on a netlist
fn room(r: Rooms, which: u32) -> u32 {
    match which {
        0 => r.pins,
        1 => r.outputs,
        2 => r.dffs,
        3 => r.rams,
        _ => r.fanouts,
    }
}

// The rooms with another for one of them.
fn with_room(r: Rooms, which: u32, n: u32) -> Rooms {
    let mut other = r;
    match which {
        0 => other.pins = n,
        1 => other.outputs = n,
        2 => other.dffs = n,
        3 => other.rams = n,
        _ => other.fanouts = n,
    }
    other
}

// One room a word short: refused, 11.
fn run_short(
    rt: &impl Print,
    words: &[u32; 9216],
    n: NetlistTables,
    which: u32,
    score: Score,
) -> io::Result<Score> {
    let rooms = needed(words);
    let need = room(rooms, which);
    if need == 0 {
        return Ok(score);
    }
    let short = with_room(rooms, which, need - 1);
    let called = call_told(score, plus(which, 2));
    run_call(rt, words, n, short, 0, 11, called)
}

// Call 0 has wide rooms, call 1 just enough, and each other one of them short.
fn run_calls(
    rt: &impl Print,
    words: &[u32; 9216],
    n: NetlistTables,
    score: Score,
) -> io::Result<Score> {
    let rooms = needed(words);
    let wide = larger(rooms);
    let first = run_call(rt, words, n, wide, 9, 0, call_told(score, 0))?;
    let mut told = run_call(rt, words, n, rooms, 0, 0, call_told(first, 1))?;
    for which in 0..5 {
        told = run_short(rt, words, n, which, told)?;
    }
    Ok(told)
}

// The netlist at hand, in all its calls.
fn run_words(rt: &impl Print, words: &[u32; 9216], score: Score) -> io::Result<Score> {
    let whole = &words[..];
    let cells = at_most(words[0], 79);
    let own = at_most(words[1], 256);
    let n = NetlistTables {
        kinds: &whole[16..16 + cells],
        starts: &whole[96..96 + cells + 1],
        list: &whole[192..192 + own],
        pins: &whole[448..448 + 5 * own],
        nets: &whole[1728..1728 + at_most(words[2], 256)],
    };
    run_calls(rt, words, n, score)
}

// The score so far, and where the text goes on.
#[derive(Drop)]
struct Run {
    score: Score,
    next: usize,
}

fn netlist_told(score: Score) -> Score {
    Score {
        netlist: plus(score.netlist, 1),
        call: 0,
        ..score
    }
}

// A line: a netlist, or empty.
fn run_line(rt: &impl Print, text: &[u8; 16384], run: Run) -> io::Result<Run> {
    let at = run.next;
    let before = run.score;
    if byte_at(text, at) < 33 {
        return Ok(Run {
            score: before,
            next: after(text, at),
        });
    }
    let mut words = [0u32; 9216];
    let next = read_line(text, at, &mut words);
    let score = run_words(rt, &words, netlist_told(before))?;
    Ok(Run { score, next })
}

// A block of lines.
fn run_block(rt: &impl Print, text: &[u8; 16384], score: Score) -> io::Result<Score> {
    let mut run = Run { score, next: 0 };
    for _ in 0..16384 {
        if 16384 <= run.next {
            return Ok(run.score);
        }
        run = run_line(rt, text, run)?;
    }
    Ok(run.score)
}

fn read_block(input: &mut impl Read, text: &mut [u8; 16384]) -> io::Result<usize> {
    read_full(input, text)
}

fn run_all(rt: &impl Print, input: &mut impl Read) -> io::Result<Score> {
    let mut score = Score {
        netlist: 0,
        call: 0,
        calls: 0,
        words: 0,
        wrong: 0,
    };
    let mut text = [0u8; 16384];
    for _ in 0..4096 {
        let n = read_block(input, &mut text)?;
        if n == 0 {
            return Ok(score);
        }
        score = run_block(rt, &text, score)?;
    }
    Ok(score)
}

fn main(rt: HostRuntime) -> io::Result<()> {
    let mut input = rt.reader();
    let score = run_all(&rt, &mut input)?;
    print_words(
        &rt,
        b"netlists, calls, words compared, words that are wrong:",
        &[score.netlist, score.calls, score.words, score.wrong],
    )
}
