// What a caller in C is told: the number of an answer, and its counts in a lent table of three words or more.
#![tactic(auto)]

ghost use Rattle.std.specs.Prelude.{◌≡◌, [], ◌∷◌, ◌≤◌, length};
ghost use Rattle.laws.specs.Words.{zeros, filled};
ghost use Rattle.tells.specs.Telling.{done_number, refused, word_told, stage_told, stages_told, end_case, end_index, endpoint_told, told_number, Tells, TellsOne, TellsTwo, TellsThree};

use rules::{Endpoint, Refusal, StageSize, StagesSize};
use words::zero;

// The number, 0 for success, and the counts; those that an answer does not have are 0.
#[derive(Clone, Copy)]
pub struct Told {
    pub number: u32,
    pub first: u32,
    pub second: u32,
    pub third: u32,
}

pub fn done_number(r: Result<(), Refusal>) -> u32
    ensures { result ≡ done_number r }
{
    match r {
        Ok(()) => 0,
        Err(e) => e.number(),
    }
}

fn told_of(number: u32, first: u32, second: u32, third: u32) -> Told
    ensures { result ≡ record { number = number; first = first; second = second; third = third } }
{
    Told {
        number,
        first,
        second,
        third,
    }
}

fn refused(e: Refusal) -> Told
    ensures { result ≡ refused e }
{
    told_of(e.number(), 0, 0, 0)
}

// A pin, or how many pins.
pub fn word_told(r: Result<u32, Refusal>) -> Told
    ensures { result ≡ word_told r }
{
    match r {
        Ok(n) => told_of(0, n, 0, 0),
        Err(e) => refused(e),
    }
}

pub fn stage_told(r: Result<StageSize, Refusal>) -> Told
    ensures { result ≡ stage_told r }
{
    match r {
        Ok(s) => told_of(0, s.handed, s.taken, 0),
        Err(e) => refused(e),
    }
}

pub fn stages_told(r: Result<StagesSize, Refusal>) -> Told
    ensures { result ≡ stages_told r }
{
    match r {
        Ok(s) => told_of(0, s.stages, s.handed, s.taken),
        Err(e) => refused(e),
    }
}

fn end_case(e: Endpoint) -> u32
    ensures { result ≡ end_case e }
{
    match e {
        Endpoint::Output(_) => 0,
        Endpoint::Flop(_) => 1,
        Endpoint::Memory(_) => 2,
        Endpoint::Handed(_) => 3,
    }
}

fn end_index(e: Endpoint) -> u32
    ensures { result ≡ end_index e }
{
    match e {
        Endpoint::Output(k) | Endpoint::Flop(k) | Endpoint::Memory(k) | Endpoint::Handed(k) => k,
    }
}

pub fn endpoint_told(r: Result<Endpoint, Refusal>) -> Told
    ensures { result ≡ endpoint_told r }
{
    match r {
        Ok(e) => told_of(0, end_case(e), end_index(e), 0),
        Err(e) => refused(e),
    }
}

// 2 where the counts have no room, after 1 and before all else.
fn told_number(room: usize, number: u32) -> u32
    ensures { result ≡ told_number room number }
{
    if number == 1 {
        return 1;
    }
    if room < 3 {
        return 2;
    }
    number
}

fn put_three(counts: &mut [u32], a: u32, b: u32, c: u32)
    requires counts_value { counts.old ≡ zeros (length counts.old) }
    requires in_bounds { 3 ≤ length counts.old }
    ensures { counts.new ≡ filled (a ∷ b ∷ c ∷ []) (length counts.old) }
{
    counts[0] = a;
    counts[1] = b;
    counts[2] = c;
}

// The counts are written, and the number is answered.
pub fn tell(t: Told, counts: &mut [u32]) -> u32
    ensures { Tells t counts.old counts.new result }
{
    zero(counts);
    let k = told_number(counts.len(), t.number);
    if k == 0 {
        put_three(counts, t.first, t.second, t.third);
    }
    k
}

// The same with a result, which is 0 after a refusal: one more can come of the counts.
pub fn tell_one(t: Told, a: &mut [u32], counts: &mut [u32]) -> u32
    ensures { TellsOne t a.old counts.old a.new counts.new result }
{
    let k = tell(t, counts);
    if k != 0 {
        zero(a);
    }
    k
}

pub fn tell_two(t: Told, a: &mut [u32], b: &mut [u32], counts: &mut [u32]) -> u32
    ensures { TellsTwo t a.old b.old counts.old a.new b.new counts.new result }
{
    let k = tell_one(t, a, counts);
    if k != 0 {
        zero(b);
    }
    k
}

pub fn tell_three(t: Told, a: &mut [u32], b: &mut [u32], c: &mut [u32], counts: &mut [u32]) -> u32
    ensures { TellsThree t a.old b.old c.old counts.old a.new b.new c.new counts.new result }
{
    let k = tell_two(t, a, b, counts);
    if k != 0 {
        zero(c);
    }
    k
}
