// Fanouts: for each pin the gates that read it, in falling order, one list after the other. As in the Rust: count, sum up, then
// fill each list from its back, gates upward.
#![tactic(auto)]

ghost use Rattle.std.specs.Prelude.{◌≡◌, ◌+◌, ◌-◌, ◌*◌, ◌/◌, ◌<◌, ◌≤◌, length, get_or};
ghost use Rattle.laws.specs.Lists.{over};
ghost use Rattle.laws.specs.Words.{zeros};
ghost use Rattle.laws.proofs.Words.{bump};
ghost use Rattle.walk.specs.State.{Operands};
ghost use Rattle.fanouts.specs.Fans.{FannedOut, Fanned, operands_of, readings, Countable, sum_to, Summed, fan, put_before, Roomy, Placing};

use rules::Refusal;
use walk::fit::test_drivers;
use words::{word, zero};

// One more reader of the pin of the literal l.
fn count_reader(starts: &mut [u32], l: u32)
    requires l_in_bounds { l / 2 < length starts.old }
    requires l_bound { get_or starts.old (l / 2) 0 ≤ 4294967294 }
    ensures { starts.new ≡ bump starts.old (l / 2) }
{
    let p = (l / 2) as usize;
    starts[p] += 1;
}

// The readings of the pin u, where it is a gate.
fn count_gate(drivers: &[u32], starts: &mut [u32], u: usize)
    requires u_in_bounds { 3 * u + 2 < length drivers.now }
    requires countable { Countable drivers.now starts.old u }
    ensures { starts.new ≡ over bump starts.old (operands_of drivers.now u) }
{
    let at = 3 * u;
    let t = word(drivers, at);
    if t != 1 {
        return;
    }
    let a = word(drivers, at + 1);
    let b = word(drivers, at + 2);
    count_reader(starts, a);
    count_reader(starts, b);
}

// How often each pin is read by the gates below m.
fn count_readers(drivers: &[u32], starts: &mut [u32], m: usize)
    requires operands { Operands drivers.now m }
    requires m_in_bounds { 3 * m ≤ length drivers.now }
    requires m_in_bounds_2 { m ≤ length starts.old }
    requires m_bound { m ≤ 16777216 }
    requires starts_value { starts.old ≡ zeros (length starts.old) }
    ensures { starts.new ≡ over bump starts.old (readings drivers.now m) }
{
    for u in 0..m {
        count_gate(drivers, starts, u);
    }
}

// Each of the first `long` words and all before it: where the list of each pin ends.
fn sum_up(starts: &mut [u32], long: usize)
    requires long_in_bounds { long ≤ length starts.old }
    requires long_bound { sum_to starts.old long ≤ 4294967295 }
    ensures { Summed starts.old long starts.new }
{
    let mut sum: u32 = 0;
    for i in 0..long {
        let n = word(starts, i);
        sum += n;
        starts[i] = sum;
    }
}

// The gate u before what stands already in the list of the pin of the literal l.
fn put_reader(starts: &mut [u32], lists: &mut [u32], u: u32, l: u32)
    requires l_in_bounds { l / 2 < length starts.old }
    requires nonzero { 0 < get_or starts.old (l / 2) 0 }
    requires l_in_bounds_2 { get_or starts.old (l / 2) 0 ≤ length lists.old }
    ensures { fan starts.new lists.new ≡ put_before u (fan starts.old lists.old) (l / 2) }
{
    let p = (l / 2) as usize;
    let at = word(starts, p) - 1;
    starts[p] = at;
    lists[at as usize] = u;
}

// The pin u, where it is a gate, into the lists of its operands.
fn put_gate(drivers: &[u32], starts: &mut [u32], lists: &mut [u32], u: usize)
    requires u_in_bounds { 3 * u + 2 < length drivers.now }
    requires u_bound { u ≤ 16777215 }
    requires roomy { Roomy drivers.now starts.old lists.old u }
    ensures { fan starts.new lists.new ≡ over (put_before u) (fan starts.old lists.old) (operands_of drivers.now u) }
{
    let at = 3 * u;
    let t = word(drivers, at);
    if t != 1 {
        return;
    }
    let a = word(drivers, at + 1);
    let b = word(drivers, at + 2);
    let g = u as u32;
    put_reader(starts, lists, g, a);
    put_reader(starts, lists, g, b);
}

// The gates below m upward, so that each list falls; the starts come down from where the lists end to where they begin.
fn put_readers(drivers: &[u32], starts: &mut [u32], lists: &mut [u32], m: usize)
    requires operands { Operands drivers.now m }
    requires m_in_bounds { 3 * m ≤ length drivers.now }
    requires m_bound { m ≤ 16777216 }
    requires placing { Placing drivers.now m starts.old lists.old 0 }
    ensures { Placing drivers.now m starts.new lists.new m }
{
    for u in 0..m {
        put_gate(drivers, starts, lists, u);
    }
}

// The fanouts of the pins up to `pins` of a checked driver table, into tables that are 0 and may be longer; whether the lists have room.
pub fn fan_out(drivers: &[u32], pins: u32, starts: &mut [u32], lists: &mut [u32]) -> bool
    requires pins_bound { pins ≤ 16777215 }
    requires pins_in_bounds { 3 * (pins + 1) ≤ length drivers.now }
    requires operands { Operands drivers.now (pins + 1) }
    requires pins_in_bounds_2 { pins + 2 ≤ length starts.old }
    requires starts_value { starts.old ≡ zeros (length starts.old) }
    requires lists_value { lists.old ≡ zeros (length lists.old) }
    ensures { Fanned drivers.now pins starts.old lists.old starts.new lists.new result }
{
    let m = (pins as usize) + 1;
    let long = m + 1;
    count_readers(drivers, starts, m);
    sum_up(starts, long);
    let total = word(starts, m);
    if lists.len() < (total as usize) {
        zero(starts);
        return false;
    }
    put_readers(drivers, starts, lists, m);
    true
}

// Each pin's gates, in falling order, and where each pin's list begins.
pub fn fanouts(
    drivers: &[u32],
    pins: u32,
    starts: &mut [u32],
    lists: &mut [u32],
) -> Result<(), Refusal>
    ensures { FannedOut drivers.now pins starts.old lists.old starts.new lists.new result }
{
    zero(starts);
    zero(lists);
    let n = pins as usize;
    test_drivers(drivers, n, lists.len() <= 33554430, starts.len() == n + 2)?;
    if !fan_out(drivers, pins, starts, lists) {
        return Err(Refusal::Room);
    }
    Ok(())
}
