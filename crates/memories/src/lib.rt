// A RAM in step 3: its clocks traced in list order, the 32 ANDs of its write enables, and its row in the table.
#![tactic(auto)]

ghost use Rattle.std.specs.Prelude.{◌≡◌, ◌+◌, ◌*◌, ◌<◌, ◌≤◌, length, get_or};
ghost use Rattle.rules.specs.Netlist.{ram};
ghost use Rattle.rules.specs.Tables.{netlist_in};
ghost use Rattle.rules.specs.Build.{step2};
ghost use Rattle.roles.specs.Reading.{Laid, kind_at, either_in, cell_pins, entry_of};
ghost use Rattle.drafts.specs.Table.{drivers_of, Open};
ghost use Rattle.drafts.specs.Layout.{number_in};
ghost use Rattle.activity.specs.Traced.{IsGoing};
ghost use Rattle.flops.specs.Flopped.{Known, Doubles};
ghost use Rattle.memories.specs.Remembered.{clocks_made, reads_first, ram_clocks, BitsDone, ClockedDone, RowDone, RamDone};

use activity::clock_activity;
use drafts::Draft;
use flops::Pair;
use roles::{cell_entry, pin_word};
use rows::fill_row;
use rules::{Literal, NetlistTables};
use tallies::ram_made;
use words::word;

// The activities of a RAM's clocks in list order.
fn both_clocks(n: NetlistTables, draft: &mut Draft, cell: u32) -> Option<Pair>
    requires going { IsGoing (netlist_in n) draft.old }
    requires cell_in_bounds { cell < length n.kinds.now }
    requires cell_value { kind_at (get_or n.kinds.now cell 0) ≡ ram }
    ensures { Doubles (clocks_made (netlist_in n.entry) (drivers_of draft.old) cell) draft.old draft.new result }
{
    let first = clock_activity(n, draft, cell, 11, 14, 0)?;
    let second = clock_activity(n, draft, cell, 11, 14, 1)?;
    Some(Pair { first, second })
}

// Whether the first of a RAM's clocks is its read clock.
fn reads_first(starts: &[u32], list: &[u32], pins: &[u32], cell: u32) -> bool
    requires laid { Laid starts.now list.now pins.now }
    requires cell_in_bounds { cell + 1 < length starts.now }
    ensures { result ≡ reads_first pins.now (entry_of (either_in pins.now 11 14 (cell_pins starts.now list.now cell)) 0) }
{
    let found = cell_entry(starts, list, pins, cell, 11, 14, 0);
    match found {
        Some(p) => pin_word(pins, p, 1) == 11,
        None => true,
    }
}

// The activities of a RAM's read clock and write clock.
fn ram_clocks(n: NetlistTables, draft: &mut Draft, cell: u32) -> Option<Pair>
    requires going { IsGoing (netlist_in n) draft.old }
    requires cell_in_bounds { cell < length n.kinds.now }
    requires cell_value { kind_at (get_or n.kinds.now cell 0) ≡ ram }
    ensures { Doubles (ram_clocks (netlist_in n.entry) (drivers_of draft.old) cell) draft.old draft.new result }
{
    let so = reads_first(n.starts, n.list, n.pins, cell);
    let both = both_clocks(n, draft, cell)?;
    if so {
        return Some(both);
    }
    Some(Pair {
        first: both.second,
        second: both.first,
    })
}

// The 32 write enables from a place of the table on, bit 0 first: each becomes its AND with the write clock's activity.
fn write_bits(draft: &mut Draft, rams: &mut [u32], from: usize, w: Literal) -> Option<Literal>
    requires open { Open draft.old }
    requires from_in_bounds { «from» + 32 ≤ length rams.old }
    ensures { BitsDone draft.old «from» w.word rams.old draft.new rams.new result }
{
    let mut lit = w;
    for i in 0..32 {
        let place = from + i;
        let enable = Literal { word: rams[place] };
        lit = draft.and_of(enable, w)?;
        rams[place] = lit.word;
    }
    Some(lit)
}

// The row of a RAM cell, its clocks traced.
fn clocked_row(
    n: NetlistTables,
    draft: &mut Draft,
    rams: &mut [u32],
    cell: u32,
    k: usize,
    read: Literal,
    write: Literal,
) -> Option<Literal>
    requires known { Known (netlist_in n) draft.old.work.now }
    requires open { Open draft.old }
    requires cell_in_bounds { cell < length n.kinds.now }
    requires k_in_bounds { 123 * k + 123 ≤ length rams.old }
    ensures { ClockedDone (netlist_in n.entry) cell k draft.old read.word write.word rams.old draft.new rams.new result }
{
    let from = 123 * k;
    fill_row(n, draft.words(), rams, cell, from);
    rams[from] = read.word;
    write_bits(draft, rams, from + 59, write)
}

// The row of a RAM cell, at a place of the table.
fn ram_row(
    n: NetlistTables,
    draft: &mut Draft,
    rams: &mut [u32],
    cell: u32,
    k: usize,
) -> Option<Literal>
    requires going { IsGoing (netlist_in n) draft.old }
    requires cell_in_bounds { cell < length n.kinds.now }
    requires cell_value { kind_at (get_or n.kinds.now cell 0) ≡ ram }
    requires k_in_bounds { 123 * k + 123 ≤ length rams.old }
    ensures { RowDone (netlist_in n.entry) cell k draft.old rams.old draft.new rams.new result }
{
    let clocks = ram_clocks(n, draft, cell)?;
    clocked_row(n, draft, rams, cell, k, clocks.first, clocks.second)
}

// The number from 1 of a RAM's row that step 2 has begun, or 0.
fn ram_number(n: NetlistTables, draft: &Draft, cell: u32) -> u32
    requires known { Known (netlist_in n) draft.now.work.now }
    requires cell_in_bounds { cell < length n.kinds.now }
    requires cell_value { kind_at (get_or n.kinds.now cell 0) ≡ ram }
    ensures { result ≡ number_in (step2 (netlist_in n.entry)).rams cell }
{
    let c = cell as usize;
    let start = word(n.starts, c) as usize;
    let end = word(n.starts, c + 1) as usize;
    if start == end {
        return 0;
    }
    word(draft.work, 6 * n.list.len() + start)
}

// A RAM cell: what is made, and its row in the table; a new row where step 2 has begun none.
pub fn memory(n: NetlistTables, draft: &mut Draft, rams: &mut [u32], cell: u32) -> Option<Literal>
    requires going { IsGoing (netlist_in n) draft.old }
    requires cell_in_bounds { cell < length n.kinds.now }
    requires cell_value { kind_at (get_or n.kinds.now cell 0) ≡ ram }
    requires nets_len_bound { length (step2 (netlist_in n)).rams ≤ draft.old.tally.rams }
    requires rams_in_bounds { 123 * draft.old.tally.rams ≤ length rams.old }
    requires rams_len_bound { length rams.old ≤ 123 * 1048576 }
    ensures { RamDone (netlist_in n.entry) cell draft.old rams.old draft.new rams.new result }
{
    let number = ram_number(n, draft, cell);
    if number != 0 {
        let k = (number - 1) as usize;
        return ram_row(n, draft, rams, cell, k);
    }
    let k = draft.tally.rams as usize;
    if rams.len() < 123 * k + 123 {
        return None;
    }
    draft.tally = ram_made(draft.tally);
    ram_row(n, draft, rams, cell, k)
}
