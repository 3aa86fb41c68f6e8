// The AND step: the gate of two literals, an old one if the pair is known, else a new pin. How a known pair is found is
// behind `Ready`: in the work words from a place on lie one link a pin, to the next lower gate of its bucket, and behind
// them the heads of the buckets, each the highest gate in it.
#![tactic(auto)]

ghost use Rattle.std.specs.Prelude.{◌≡◌, ℕ, ◌+◌, ◌*◌, ◌/◌, ◌<◌, ◌≤◌, length};
ghost use Rattle.rules.specs.Graph.{first_pin, is_pair};
ghost use Rattle.rules.specs.Tables.{drivers_in};
ghost use Rattle.gates.specs.Step.{is_pair_at, bucket_of, chained, Ready, Paired, Stepped};

use drivers::put_driver;
use rules::{Driver, Literal};

// What a step gives: a literal, and how many pins there are after it.
#[derive(Clone, Copy)]
pub struct Step {
    pub lit: Literal,
    pub pins: u32,
}

// Whether pin p is the gate of (lo, hi).
fn is_pair(drivers: &[u32], p: usize, lo: u32, hi: u32) -> bool
    requires { 3 * p + 2 < length drivers.now }
    ensures { result ≡ is_pair_at drivers.now p lo hi }
{
    let at = 3 * p;
    drivers[at] == 1 && drivers[at + 1] == lo && drivers[at + 2] == hi
}

// The bucket of a pair. Buckets are an odd number, and both factors and half their sum are primes larger than it, so that
// pairs in a row, pairs with one operand in common and pairs a fixed way apart are spread evenly.
fn bucket_of(rows: usize, lo: u32, hi: u32) -> usize
    requires { rows ≤ 16777216 }
    ensures value { result ≡ bucket_of rows lo hi }
    ensures upper_bound { result < 2 * rows + 1 }
{
    let first = (lo as usize) * 663608969;
    let second = (hi as usize) * 374762369;
    let mixed = first + second;
    let buckets = 2 * rows + 1;
    mixed % buckets
}

// The pin of the gate of (lo, hi), or the next new pin where there is none: down the chain of its bucket.
fn find_pair(drivers: &[u32], work: &[u32], at: usize, pins: u32, lo: u32, hi: u32) -> u32
    requires { Ready at work.now drivers.now pins }
    ensures { result ≡ first_pin (is_pair lo hi) (drivers_in drivers.now pins) }
{
    let rows = drivers.len() / 3;
    let bucket = bucket_of(rows, lo, hi);
    let head = at + rows + bucket;
    let mut p = work[head];
    while p != 0 {
        if is_pair(drivers, p as usize, lo, hi) {
            return p;
        }
        p = work[at + p as usize];
    }
    pins + 1
}

// A new gate becomes the head of its bucket's chain.
fn chain_gate(work: &mut [u32], at: usize, rows: usize, p: u32, lo: u32, hi: u32)
    requires rows_bound { rows ≤ 16777216 }
    requires p_lt_rows { p < rows }
    requires rows_in_bounds { at + 3 * rows + 1 ≤ length work.old }
    ensures { work.new ≡ chained work.old at rows p (bucket_of rows lo hi) }
{
    let bucket = bucket_of(rows, lo, hi);
    let head = at + rows + bucket;
    let link = at + p as usize;
    let top = work[head];
    work[link] = top;
    work[head] = p;
}

// The gate of an ordered pair, or none where it is new and the table is full.
fn pair_gate(
    drivers: &mut [u32],
    work: &mut [u32],
    at: usize,
    pins: u32,
    lo: u32,
    hi: u32,
) -> Option<Step>
    requires { Ready at work.old drivers.old pins }
    ensures { Paired at work.old drivers.old pins lo hi work.new drivers.new result }
{
    let p = find_pair(drivers, work, at, pins, lo, hi);
    if p <= pins {
        let lit = Literal { word: 2 * p };
        return Some(Step { lit, pins });
    }
    let row = p as usize;
    if drivers.len() < 3 * row + 3 {
        return None;
    }
    put_driver(
        drivers,
        row,
        Driver::And(Literal { word: lo }, Literal { word: hi }),
    );
    let rows = drivers.len() / 3;
    chain_gate(work, at, rows, p, lo, hi);
    let lit = Literal { word: 2 * p };
    Some(Step { lit, pins: p })
}

// The AND of two literals: a 0 gives 0, else a 1 gives the other literal, else the gate of the ordered pair; none where
// it is new and the table is full.
pub fn add_and_gate(
    drivers: &mut [u32],
    work: &mut [u32],
    at: usize,
    pins: u32,
    a: Literal,
    b: Literal,
) -> Option<Step>
    requires { Ready at work.old drivers.old pins }
    ensures { Stepped at work.old drivers.old pins a.word b.word work.new drivers.new result }
{
    let x = a.word;
    let y = b.word;
    if x == 0 {
        return Some(Step { lit: a, pins });
    }
    if y == 0 {
        return Some(Step { lit: b, pins });
    }
    if x == 1 {
        return Some(Step { lit: b, pins });
    }
    if y == 1 {
        return Some(Step { lit: a, pins });
    }
    if y < x {
        pair_gate(drivers, work, at, pins, y, x)
    } else {
        pair_gate(drivers, work, at, pins, x, y)
    }
}
