// The reference evaluator: one bit a pin, in one upward pass.
#![tactic(auto)]

ghost use Rattle.std.specs.Prelude.{◌≡◌, ◌/◌, ◌<◌, ◌≤◌, length, get_or};
ghost use Rattle.laws.specs.Tests.{one};
ghost use Rattle.rules.specs.Answers.{source_of};
ghost use Rattle.walk.specs.State.{tag_of};
ghost use Rattle.evaluate.specs.Bits.{Evaluated, lengths_fit, pin_bit, literal_word, Filling};

use rules::Refusal;
use walk::fit::test_drivers;
use words::{word, zero};

// The bit of a literal, from the bits of the pins.
fn literal_bit(bits: &[u32], l: u32) -> u32
    requires l_in_bounds { l / 2 < length bits.now }
    requires l_bound { get_or bits.now (l / 2) 0 ≤ 1 }
    ensures { result ≡ literal_word bits.now l }
{
    let p = (l / 2) as usize;
    (word(bits, p) + l % 2) % 2
}

// The bit of a gate, from the bits of the pins below it.
fn gate_bit(drivers: &[u32], sources: &[u32], bits: &[u32], u: usize) -> u32
    requires filling { Filling drivers.now sources.now bits.now u }
    requires u_in_bounds { u < length bits.now }
    requires u_value { tag_of drivers.now u ≡ 1 }
    ensures { result ≡ one (pin_bit drivers.now sources.now (length bits.now) u) }
{
    let at = 3 * u;
    let a = word(drivers, at + 1);
    let b = word(drivers, at + 2);
    let x = literal_bit(bits, a);
    let y = literal_bit(bits, b);
    if x == 0 { 0 } else { y }
}

fn source_bit(sources: &[u32], u: usize) -> u32
    requires { u < length sources.now }
    ensures { result ≡ one (source_of sources.now u) }
{
    let s = word(sources, u);
    if s == 0 { 0 } else { 1 }
}

// The bit of the pin u, from the bits of the pins below it.
fn pin_bit(drivers: &[u32], sources: &[u32], bits: &[u32], u: usize) -> u32
    requires filling { Filling drivers.now sources.now bits.now u }
    requires u_in_bounds { u < length bits.now }
    ensures { result ≡ one (pin_bit drivers.now sources.now (length bits.now) u) }
{
    match word(drivers, 3 * u) {
        0 => 0,
        1 => gate_bit(drivers, sources, bits, u),
        _ => source_bit(sources, u),
    }
}

// The bits of all pins, upward.
fn fill_bits(drivers: &[u32], sources: &[u32], bits: &mut [u32])
    requires { Filling drivers.now sources.now bits.old 0 }
    ensures { Filling drivers.now sources.now bits.new (length bits.old) }
{
    for u in 0..bits.len() {
        let v = pin_bit(drivers, sources, bits, u);
        bits[u] = v;
    }
}

// 2, beside the driver table: is there a word for each pin?
fn lengths_fit(pins: u32, sources: usize, bits: usize) -> bool
    ensures { result ≡ lengths_fit pins sources bits }
{
    let m = (pins as usize) + 1;
    sources == m && bits == m
}

// The bit of each pin from 0, where a source's bit is 0 if its word is 0, else 1.
pub fn evaluate(
    drivers: &[u32],
    pins: u32,
    sources: &[u32],
    bits: &mut [u32],
) -> Result<(), Refusal>
    ensures { Evaluated drivers.now pins sources.now bits.old bits.new result }
{
    zero(bits);
    let n = pins as usize;
    let lengths = lengths_fit(pins, sources.len(), bits.len());
    test_drivers(drivers, n, true, lengths)?;
    fill_bits(drivers, sources, bits);
    Ok(())
}
