// The words of a RAM's row that are read off the literals of its pins: addresses, data, and write enables before their ANDs.
#![tactic(auto)]

ghost use Rattle.std.specs.Prelude.{◌≡◌, ◌+◌, ◌*◌, ◌<◌, ◌≤◌, length, take, drop};
ghost use Rattle.laws.specs.Lists.{keep};
ghost use Rattle.rules.specs.Tables.{netlist_in};
ghost use Rattle.words.proofs.Tables.{Writing};
ghost use Rattle.roles.specs.Reading.{Held, entry_of};
ghost use Rattle.flops.specs.Flopped.{Known};
ghost use Rattle.rows.specs.Words.{has_bit, bit_lit, plain_word};

use literals::literal_at;
use roles::pin_word;
use rules::NetlistTables;
use words::word;

// Whether a pin has this name and bit.
fn has_bit(pins: &[u32], p: u32, name: u32, bit: u32) -> bool
    requires { 5 * p + 4 < length pins.now }
    ensures { result ≡ has_bit pins.now name bit p }
{
    pin_word(pins, p, 1) == name && pin_word(pins, p, 2) == bit
}

// Of n entries from a place on, the first with this name and bit.
fn entry_bit(list: &[u32], pins: &[u32], from: usize, n: usize, name: u32, bit: u32) -> Option<u32>
    requires { Held list.now pins.now «from» n }
    ensures { result ≡ entry_of (keep (has_bit pins.now name bit) (take n (drop «from» list.now))) 0 }
{
    for i in 0..n {
        let p = list[from + i];
        let hit = has_bit(pins, p, name, bit);
        if hit {
            return Some(p);
        }
    }
    None
}

// The literal of a cell's pin with a name and a bit; 0 where there is none.
fn cell_bit(n: NetlistTables, work: &[u32], cell: u32, name: u32, bit: u32) -> u32
    requires known { Known (netlist_in n) work.now }
    requires cell_in_bounds { cell < length n.kinds.now }
    ensures { result ≡ bit_lit (netlist_in n.entry) cell name bit }
{
    let c = cell as usize;
    let from = word(n.starts, c) as usize;
    let end = word(n.starts, c + 1) as usize;
    let count = end - from;
    let found = entry_bit(n.list, n.pins, from, count, name, bit);
    match found {
        Some(p) => literal_at(work, n.list.len(), p).word,
        None => 0,
    }
}

// Word j of a cell's row.
fn row_word(n: NetlistTables, work: &[u32], cell: u32, j: u32) -> u32
    requires known { Known (netlist_in n) work.now }
    requires cell_in_bounds { cell < length n.kinds.now }
    ensures { result ≡ plain_word (netlist_in n.entry) cell j }
{
    match j {
        0 => 0,
        1..=13 => cell_bit(n, work, cell, 10, j - 1),
        14..=45 => cell_bit(n, work, cell, 12, j - 14) / 2,
        46..=58 => cell_bit(n, work, cell, 13, j - 46),
        59..=90 => cell_bit(n, work, cell, 16, j - 59),
        _ => cell_bit(n, work, cell, 15, j - 91),
    }
}

// A cell's row from a place of the table on.
pub fn fill_row(n: NetlistTables, work: &[u32], rams: &mut [u32], cell: u32, from: usize)
    requires known { Known (netlist_in n) work.now }
    requires cell_in_bounds { cell < length n.kinds.now }
    requires from_in_bounds { «from» + 123 ≤ length rams.old }
    ensures { Writing rams.old «from» (plain_word (netlist_in n.entry) cell) 123 rams.new }
{
    for j in 0..123 {
        rams[from + j as usize] = row_word(n, work, cell, j);
    }
}
