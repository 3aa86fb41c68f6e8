// The driver table: three words a pin, read and written as the declared driver.
#![tactic(auto)]

ghost use Rattle.std.specs.Prelude.{◌≡◌, ◌+◌, ◌*◌, ◌<◌, length, set};
ghost use Rattle.rules.specs.Tables.{decode, decode_at, edge_word};
ghost use Rattle.drivers.specs.Written.{written};

use rules::{Driver, Edge, Literal};

// What three words say; a word that a case does not use is 0.
pub fn decode_words(t: u32, a: u32, b: u32) -> Option<Driver>
    ensures { result ≡ decode t a b }
{
    match (t, a, b) {
        (0, 0, 0) => Some(Driver::Constant),
        (1, _, _) => Some(Driver::And(Literal { word: a }, Literal { word: b })),
        (2, _, 0) => Some(Driver::Port(a)),
        (3, _, 0) => Some(Driver::Flag(a, Edge::Rising)),
        (3, _, 1) => Some(Driver::Flag(a, Edge::Falling)),
        (4, _, 0) => Some(Driver::Dff(a)),
        (5, _, 0) => Some(Driver::Ram(a)),
        _ => None,
    }
}

// The driver of a pin, or none where its words are none of the cases.
#[tactic(auto, unfolding(rules::specs::Tables::decode_at))]
pub fn driver_at(drivers: &[u32], pin: usize) -> Option<Driver>
    requires { 3 * pin + 2 < length drivers.now }
    ensures { result ≡ decode_at drivers.now pin }
{
    let at = 3 * pin;
    decode_words(drivers[at], drivers[at + 1], drivers[at + 2])
}

// An edge as a word.
pub fn edge_word(e: Edge) -> u32
    ensures { result ≡ edge_word e }
{
    match e {
        Edge::Rising => 0,
        Edge::Falling => 1,
    }
}

fn put_words(drivers: &mut [u32], at: usize, t: u32, a: u32, b: u32)
    requires { at + 2 < length drivers.old }
    ensures { drivers.new ≡ set (set (set drivers.old at t) (at + 1) a) (at + 2) b }
{
    drivers[at] = t;
    drivers[at + 1] = a;
    drivers[at + 2] = b;
}

// The driver of a pin is written; every other word is as it was.
#[tactic(auto, unfolding(crate::specs::Written::written))]
pub fn put_driver(drivers: &mut [u32], pin: usize, d: Driver)
    requires { 3 * pin + 2 < length drivers.old }
    ensures { drivers.new ≡ written drivers.old pin d }
{
    let at = 3 * pin;
    match d {
        Driver::And(a, b) => put_words(drivers, at, 1, a.word, b.word),
        Driver::Port(p) => put_words(drivers, at, 2, p, 0),
        Driver::Flag(p, e) => put_words(drivers, at, 3, p, edge_word(e)),
        Driver::Dff(c) => put_words(drivers, at, 4, c, 0),
        Driver::Ram(c) => put_words(drivers, at, 5, c, 0),
        Driver::Constant => put_words(drivers, at, 0, 0, 0),
    }
}
