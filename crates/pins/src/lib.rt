// The pins of a netlist one by one: their words in range, and the kinds of cells that may have them.
#![tactic(auto)]

ghost use Rattle.std.specs.Prelude.{◌≡◌, ◌+◌, ◌*◌, ◌<◌, ◌≤◌, length};
ghost use Rattle.laws.specs.Lists.{every, upto};
ghost use Rattle.pins.specs.Words.{pin_at, ranged, Held, Ranged, slotted};

use kinds::{kind_word, slot_allows};

// Word i of a pin: its cell, name, bit, direction and net.
pub fn pin_word(pins: &[u32], i: usize, p: usize) -> u32
    requires { 5 * p + i < length pins.now }
    ensures { result ≡ pin_at pins.now i p }
{
    pins[5 * p + i]
}

// Cell, net and direction in range.
fn pin_ranged(pins: &[u32], p: usize, cells: usize, nets: usize) -> bool
    requires { 5 * p + 4 < length pins.now }
    ensures { result ≡ ranged pins.now cells nets p }
{
    let cell = pin_word(pins, 0, p) as usize;
    let net = pin_word(pins, 4, p) as usize;
    let direction = pin_word(pins, 3, p);
    cell < cells && net < nets && direction <= 1
}

// The same of every pin.
pub fn pins_ranged(pins: &[u32], size: usize, cells: usize, nets: usize) -> bool
    requires { 5 * size ≤ length pins.now }
    ensures { result ≡ every (ranged pins.now cells nets) (upto size) }
{
    (0..size).all(|p| pin_ranged(pins, p, cells, nets))
}

// A pin that the kind of its cell may have, by the constant table; no kind has a name of 17 or more.
fn pin_allowed(kinds: &[u32], pins: &[u32], p: usize) -> bool
    requires { Held kinds.now pins.now p }
    ensures { result ≡ slotted kinds.now pins.now p }
{
    let name = pin_word(pins, 1, p) as usize;
    if 17 <= name {
        return false;
    }
    let cell = pin_word(pins, 0, p) as usize;
    let kind = kinds[cell] as usize;
    let allows = kind_word(kind, name);
    let bit = pin_word(pins, 2, p);
    let direction = pin_word(pins, 3, p);
    slot_allows(allows, bit, direction)
}

// The same of every pin.
pub fn pins_allowed(kinds: &[u32], pins: &[u32], size: usize) -> bool
    requires { Ranged kinds.now pins.now size }
    ensures { result ≡ every (slotted kinds.now pins.now) (upto size) }
{
    (0..size).all(|p| pin_allowed(kinds, pins, p))
}
