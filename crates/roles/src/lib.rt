// A netlist read off its words: what a pin is, the pins of a cell by their names, and where a visit goes.
#![tactic(auto)]

ghost use Rattle.std.specs.Prelude.{◌≡◌, [], ◌∷◌, ℕ, ◌+◌, ◌*◌, ◌<◌, ◌≤◌, length, get_or};
ghost use Rattle.rules.specs.Netlist.{pin_named};
ghost use Rattle.rules.specs.Build.{in_role, out_role, role, next};
ghost use Rattle.rules.specs.Tables.{netlist_in};
ghost use Rattle.roles.specs.Reading.{tables, Fits, Laid, entry_of, has_name, either_in, cell_pins, kind_at, and_as, says};

use kinds::kind_word;
use rules::NetlistTables;

// What a pin is, as the visits of step 2 see it.
#[derive(Clone, Copy)]
pub enum PinRole {
    Tied(bool),
    Wire(u32),
    OutPort(u32),
    InPort,
    AndOut(bool, bool, bool, u32, u32),
    InvOut(u32),
    BufOut(u32),
    GateOut(u32, u32),
    DffOut(u32),
    RamOut(u32, u32),
    Nothing,
}

// Whether a pin has one of two names.
fn has_name(pins: &[u32], p: u32, a: u32, b: u32) -> bool
    requires { 5 * p + 4 < length pins.now }
    ensures { result ≡ has_name pins.now a b p }
{
    let name = pin_word(pins, p, 1);
    name == a || name == b
}

// Of a cell's pins in list order, the one at k among those with one of two names.
pub fn cell_entry(
    starts: &[u32],
    list: &[u32],
    pins: &[u32],
    cell: u32,
    a: u32,
    b: u32,
    k: usize,
) -> Option<u32>
    requires laid { Laid starts.now list.now pins.now }
    requires cell_in_bounds { cell + 1 < length starts.now }
    ensures { result ≡ entry_of (either_in pins.now a b (cell_pins starts.now list.now cell)) k }
{
    let c = cell as usize;
    let at = starts[c] as usize;
    let end = starts[c + 1] as usize;
    let own = &list[at..end];
    let mut left = k;
    for &p in own {
        let hit = has_name(pins, p, a, b);
        if !hit {
            continue;
        }
        if left == 0 {
            return Some(p);
        }
        left -= 1;
    }
    None
}

// The pin of a cell with a name; 0 where there is none.
pub fn pin_named(starts: &[u32], list: &[u32], pins: &[u32], cell: u32, name: u32) -> u32
    requires laid { Laid starts.now list.now pins.now }
    requires cell_in_bounds { cell + 1 < length starts.now }
    ensures { result ≡ pin_named (tables [] starts.now list.now pins.now []) cell name }
{
    let found = cell_entry(starts, list, pins, cell, name, name, 0);
    found.unwrap_or(0)
}

// Word i of a pin: its cell, name, bit, direction and net.
pub fn pin_word(pins: &[u32], p: u32, i: usize) -> u32
    requires { 5 * p + i < length pins.now }
    ensures { result ≡ get_or pins.now (5 * p + i) 0 }
{
    let at = 5 * (p as usize);
    pins[at + i]
}

// An in pin, by what drives its net.
fn in_role(top: bool, driver: u32) -> PinRole
    ensures { says result ≡ in_role top driver }
{
    match driver {
        0 => PinRole::Tied(false),
        1 => PinRole::Tied(true),
        _ if top => PinRole::OutPort(driver - 2),
        _ => PinRole::Wire(driver - 2),
    }
}

// The output of an AND2, with the inversion digits of its kind.
fn and_role(kind: u32, a: u32, b: u32) -> PinRole
    requires kind_nonzero { 0 < kind }
    requires kind_bound { kind < 6 }
    ensures { says result ≡ and_as (kind_at kind) a b }
{
    let digits = kind_word(kind as usize, 31);
    let x = digits % 2 == 1;
    let y = digits / 2 % 2 == 1;
    let z = digits / 4 == 1;
    PinRole::AndOut(x, y, z, a, b)
}

// An out pin, by the kind of its cell.
fn out_role(n: NetlistTables, cell: u32, p: u32) -> PinRole
    requires laid { Laid n.starts.now n.list.now n.pins.now }
    requires starts_len { length n.starts.now ≡ length n.kinds.now + 1 }
    requires cell_in_bounds { cell < length n.kinds.now }
    requires p_in_bounds { 5 * p + 4 < length n.pins.now }
    ensures { says result ≡ out_role (netlist_in n.entry) cell p (kind_at (get_or n.entry.kinds.now cell 0)) }
{
    let kind = n.kinds[cell as usize];
    match kind {
        0 => PinRole::InPort,
        1..=5 => {
            let a = pin_named(n.starts, n.list, n.pins, cell, 1);
            let b = pin_named(n.starts, n.list, n.pins, cell, 2);
            and_role(kind, a, b)
        }
        6 => PinRole::InvOut(pin_named(n.starts, n.list, n.pins, cell, 1)),
        7 => PinRole::BufOut(pin_named(n.starts, n.list, n.pins, cell, 1)),
        8 | 9 => PinRole::DffOut(cell),
        10 => {
            let clock = pin_named(n.starts, n.list, n.pins, cell, 8);
            let enable = pin_named(n.starts, n.list, n.pins, cell, 9);
            PinRole::GateOut(clock, enable)
        }
        11 => {
            let bit = pin_word(n.pins, p, 2);
            PinRole::RamOut(cell, bit)
        }
        _ => PinRole::Nothing,
    }
}

// What a pin is.
pub fn role(n: NetlistTables, p: u32) -> PinRole
    requires fits { Fits (netlist_in n) }
    requires p_in_bounds { p < length n.list.now }
    ensures { says result ≡ role (netlist_in n.entry) p }
{
    let cell = pin_word(n.pins, p, 0);
    let direction = pin_word(n.pins, p, 3);
    if direction == 1 {
        return out_role(n, cell, p);
    }
    let net = pin_word(n.pins, p, 4);
    let driver = n.nets[net as usize];
    in_role(cell == 0, driver)
}

// The entry at k of a list of one pin.
fn one_entry(x: u32, k: usize) -> Option<u32>
    ensures { result ≡ entry_of (x ∷ []) k }
{
    match k {
        0 => Some(x),
        _ => None,
    }
}

// The entry at k of a list of two pins.
fn two_entries(x: u32, y: u32, k: usize) -> Option<u32>
    ensures { result ≡ entry_of (x ∷ y ∷ []) k }
{
    match k {
        0 => Some(x),
        1 => Some(y),
        _ => None,
    }
}

// Where the visit of a pin goes: the place at k, counted from 0.
pub fn visit_at(n: NetlistTables, p: u32, k: usize) -> Option<u32>
    requires fits { Fits (netlist_in n) }
    requires p_in_bounds { p < length n.list.now }
    ensures { result ≡ entry_of (next (netlist_in n.entry) p) k }
{
    let what = role(n, p);
    match what {
        PinRole::Wire(q) | PinRole::OutPort(q) => one_entry(q, k),
        PinRole::InvOut(a) | PinRole::BufOut(a) => one_entry(a, k),
        PinRole::AndOut(_, _, _, a, b) => two_entries(a, b, k),
        PinRole::GateOut(clock, enable) => two_entries(clock, enable, k),
        PinRole::DffOut(cell) => cell_entry(n.starts, n.list, n.pins, cell, 6, 7, k),
        PinRole::Tied(_) | PinRole::InPort | PinRole::RamOut(_, _) | PinRole::Nothing => None,
    }
}
