// The running tallies, by value: one more of each sort when an entry is made.
#![tactic(auto)]

ghost use Rattle.std.specs.Prelude.{◌≡◌, ◌<◌, ◌≤◌};
ghost use Rattle.tallies.specs.Counted.{pin_counted, output_counted, dff_counted, ram_counted};

use rules::{Driver, Tally};

// Whether a driver is a gate, as a number.
fn gates_of(d: Driver) -> u32
    ensures { result ≡ Rattle.tallies.specs.Counted.gates_of d }
{
    u32::from(matches!(d, Driver::And(_, _)))
}

// A pin is made with this driver.
pub fn pin_made(t: Tally, d: Driver) -> Tally
    requires pins_bound { t.pins < 16777215 }
    requires gates_le_pins { t.gates ≤ t.pins }
    ensures { result ≡ pin_counted d t }
{
    Tally {
        pins: t.pins + 1,
        gates: t.gates + gates_of(d),
        ..t
    }
}

// An output literal is added.
pub fn output_made(t: Tally) -> Tally
    requires { t.outputs < 1048576 }
    ensures { result ≡ output_counted t }
{
    Tally {
        outputs: t.outputs + 1,
        ..t
    }
}

// A flip-flop record is made.
pub fn dff_made(t: Tally) -> Tally
    requires { t.dffs < 1048576 }
    ensures { result ≡ dff_counted t }
{
    Tally {
        dffs: t.dffs + 1,
        ..t
    }
}

// A RAM record is made.
pub fn ram_made(t: Tally) -> Tally
    requires { t.rams < 1048576 }
    ensures { result ≡ ram_counted t }
{
    Tally {
        rams: t.rams + 1,
        ..t
    }
}
