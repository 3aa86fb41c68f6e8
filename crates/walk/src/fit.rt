// Whether a driver table is one: what refusal 12 asks of drivers.
ghost use Rattle.std.specs.Prelude.{◌≡◌, ◌&&◌, ◌+◌, ◌*◌, ◌<◌, ◌≤◌, length};
ghost use Rattle.laws.specs.Tests.{◌<?◌, ◌≤?◌};
ghost use Rattle.rules.specs.Tables.{decode, decode_at};
ghost use Rattle.rules.specs.Refusals.{operand_fits, driver_fits, drivers_fit};
ghost use Rattle.rules.specs.Answers.{done_of, drivers_number};

use rules::Refusal;
use words::word;

// Is a a literal of a pin from 1 on, below u?
fn operand_fits(u: usize, a: u32) -> bool
    ensures { result ≡ operand_fits u a }
{
    let p = (a / 2) as usize;
    1 <= p && p < u
}

fn gate_fits(u: usize, a: u32, b: u32) -> bool
    ensures { result ≡ driver_fits u (decode 1 a b) }
{
    operand_fits(u, a) && operand_fits(u, b) && a <= b
}

// A source is any pin but 0, and its third word is at most `most`.
fn source_fits(u: usize, b: u32, most: u32) -> bool
    ensures { result ≡ ((b ≤? most) && (0 <? u)) }
{
    b <= most && 0 < u
}

fn constant_fits(u: usize, a: u32, b: u32) -> bool
    ensures { result ≡ driver_fits u (decode 0 a b) }
{
    a == 0 && b == 0 && u == 0
}

// Do three words say a driver that the pin u may have?
fn words_fit(u: usize, t: u32, a: u32, b: u32) -> bool
    ensures { result ≡ driver_fits u (decode t a b) }
{
    match t {
        0 => constant_fits(u, a, b),
        1 => gate_fits(u, a, b),
        2 => source_fits(u, b, 0),
        3 => source_fits(u, b, 1),
        4 => source_fits(u, b, 0),
        5 => source_fits(u, b, 0),
        _ => false,
    }
}

fn driver_fits(drivers: &[u32], u: usize) -> bool
    requires { 3 * u + 2 < length drivers.now }
    ensures { result ≡ driver_fits u (decode_at drivers.now u) }
{
    let at = 3 * u;
    let t = word(drivers, at);
    let a = word(drivers, at + 1);
    let b = word(drivers, at + 2);
    words_fit(u, t, a, b)
}

// Does each pin from 0 to pins have a driver that it may have?
pub fn check_drivers(drivers: &[u32], pins: usize) -> bool
    requires { 3 * (pins + 1) ≤ length drivers.now }
    ensures { result ≡ drivers_fit drivers.now pins }
{
    let m = pins + 1;
    for u in 0..m {
        if !driver_fits(drivers, u) {
            return false;
        }
    }
    true
}

// 1, 2 and 12 of a call on a driver table, where `counts` and `lengths` say whether what else is lent passes 1 and 2.
pub fn test_drivers(
    drivers: &[u32],
    pins: usize,
    counts: bool,
    lengths: bool,
) -> Result<(), Refusal>
    ensures { result ≡ done_of (drivers_number pins drivers.now counts lengths) }
{
    if 16777215 < pins {
        return Err(Refusal::Bounds);
    }
    if !counts {
        return Err(Refusal::Bounds);
    }
    let long = 3 * (pins + 1);
    if drivers.len() != long {
        return Err(Refusal::Lengths);
    }
    if !lengths {
        return Err(Refusal::Lengths);
    }
    if !check_drivers(drivers, pins) {
        return Err(Refusal::Graph);
    }
    Ok(())
}
