// A graph in the making: the driver table with its running tallies. Each step adds what the rules add, or gives nothing
// where the table is full; how known pairs are found lies in the work words from `at` on.
#![tactic(auto)]

ghost use Rattle.std.specs.Prelude.{◌≡◌, Bool, true, false, ℕ, List, ◌+◌, ◌*◌, ◌<◌, ◌≤◌, length};
ghost use Rattle.rules.specs.Bounds.{max_graph_pins};
ghost use Rattle.rules.specs.Graph.{and_of, or_not};
ghost use Rattle.rules.specs.Build.{is_gate};
ghost use Rattle.drafts.specs.Table.{Table, drafted, drivers_of, pushed, set_reset, gate_counted, Open, Extends, Adds};

use drivers::put_driver;
use gates::add_and_gate;
use rules::{Driver, Literal, Tally};
use tallies::pin_made;

// A graph in the making: the driver table, the work words with the index of known pairs from `at` on, and the tallies.
#[derive(Drop)]
pub struct Draft<'a> {
    pub drivers: &'a mut [u32],
    pub work: &'a mut [u32],
    pub at: usize,
    pub tally: Tally,
}

// A gate more where there is a pin more.
fn gate_counted(t: Tally, pins: u32) -> Tally
    requires pins_bound { t.pins ≤ 16777215 }
    requires gates_le_pins { t.gates ≤ t.pins }
    requires pins_le_pins { t.pins ≤ pins }
    requires pins_bound_2 { pins ≤ 16777215 }
    ensures { result ≡ gate_counted t pins }
{
    if pins == t.pins {
        return t;
    }
    pin_made(t, Driver::And(Literal { word: 0 }, Literal { word: 0 }))
}

// What a step gives: its literal, and the tallies after it.
#[derive(Clone, Copy)]
pub struct Added {
    pub lit: Literal,
    pub tally: Tally,
}

// A row for a pin with a driver that is no gate, whatever the work words say of known pairs.
fn push_row(drivers: &mut [u32], t: Tally, d: Driver) -> Option<Added>
    requires long { 3 * t.pins + 3 ≤ length drivers.old }
    requires bounded { length drivers.old ≤ 3 * (max_graph_pins + 1) }
    requires gates_le_pins { t.gates ≤ t.pins }
    requires d_value { is_gate d ≡ false }
    ensures { (at : ℕ) → (w : List ℕ) → Table at w drivers.old t → Extends at (pushed (drafted drivers.old t) d) w drivers.old t w drivers.new result }
{
    let pin = t.pins + 1;
    let row = pin as usize;
    if drivers.len() < 3 * row + 3 {
        return None;
    }
    put_driver(drivers, row, d);
    let tally = pin_made(t, d);
    let lit = Literal { word: 2 * pin };
    Some(Added { lit, tally })
}

// A pin with a driver that is no gate, where the work words are only read.
pub fn push(drivers: &mut [u32], work: &[u32], at: usize, t: Tally, d: Driver) -> Option<Added>
    requires table { Table at work.now drivers.old t }
    requires d_value { is_gate d ≡ false }
    ensures { Extends at (pushed (drafted drivers.old t) d) work.now drivers.old t work.now drivers.new result }
{
    push_row(drivers, t, d)
}

impl Draft<'_> {
    // The work words, to be read alone.
    pub fn words(&self) -> &[u32]
        ensures { result.now ≡ self.now.work.now }
    {
        &*self.work
    }

    // A pin with a driver that is no gate.
    pub fn push(&mut self, d: Driver) -> Option<Literal>
        requires open { Open self.old }
        requires d_value { is_gate d ≡ false }
        ensures adds { Adds (pushed (drivers_of self.old) d) self.old self.new result }
        ensures same_words { self.new.work.now ≡ self.old.work.now }
    {
        let made = push_row(self.drivers, self.tally, d)?;
        self.tally = made.tally;
        Some(made.lit)
    }

    // The AND of two literals.
    pub fn and_of(&mut self, a: Literal, b: Literal) -> Option<Literal>
        requires { Open self.old }
        ensures { Adds (and_of (drivers_of self.old) a.word b.word) self.old self.new result }
    {
        let step = add_and_gate(self.drivers, self.work, self.at, self.tally.pins, a, b)?;
        self.tally = gate_counted(self.tally, step.pins);
        Some(step.lit)
    }

    // "v or not w": the opposite of the AND of v's opposite and w.
    pub fn or_not(&mut self, v: Literal, w: Literal) -> Option<Literal>
        requires { Open self.old }
        ensures { Adds (or_not (drivers_of self.old) v.word w.word) self.old self.new result }
    {
        let other = v.opposite();
        let lit = self.and_of(other, w)?;
        let turned = lit.opposite();
        Some(turned)
    }

    // A stored bit v as its set and reset let it through: "(v or not s) and r".
    pub fn set_reset(&mut self, v: Literal, s: Literal, r: Literal) -> Option<Literal>
        requires { Open self.old }
        ensures { Adds (set_reset (drivers_of self.old) v.word s.word r.word) self.old self.new result }
    {
        let set = self.or_not(v, s)?;
        self.and_of(set, r)
    }
}
