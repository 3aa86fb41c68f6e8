// An entry more in the tables: a flip-flop's record, a RAM's record, an output literal.
#![tactic(auto)]

ghost use Rattle.std.specs.Prelude.{◌≡◌, ℕ, ◌+◌, ◌*◌, ◌<◌, ◌≤◌, length};
ghost use Rattle.drafts.specs.Table.{Open};
ghost use Rattle.entries.specs.Made.{AddsFlop, AddsRam, AddsOutput};

use drafts::Draft;
use literals::put_literal;
use numbers::{count_flops, count_rams, number_cell};
use rules::{Driver, Literal};
use tallies::output_made;

// A flip-flop's own pin, and the number of its record; its list begins at `place`.
pub fn make_flop(draft: &mut Draft, m: usize, room: u32, cell: u32, place: usize) -> Option<()>
    requires open { Open draft.old }
    requires place_lt_m { place < m }
    requires m_bound { 8 * m ≤ draft.old.at }
    requires room_bound { room ≤ 1048576 }
    requires dffs_bound { draft.old.tally.dffs ≤ 1048576 }
    ensures { AddsFlop m room cell place draft.old draft.new result }
{
    draft.push(Driver::Dff(cell))?;
    let own = m + place;
    let number = 6 * m + place;
    draft.work[own] = draft.tally.pins;
    let count = number_cell(draft.work, number, draft.tally.dffs);
    draft.tally = count_flops(draft.tally, count, room)?;
    Some(())
}

// The output of a RAM: a pin for itself, and the number of its record where it has none yet.
pub fn make_ram(
    draft: &mut Draft,
    m: usize,
    room: u32,
    p: u32,
    cell: u32,
    place: usize,
) -> Option<()>
    requires open { Open draft.old }
    requires p_lt_m { p < m }
    requires place_lt_m { place < m }
    requires m_bound { 8 * m ≤ draft.old.at }
    requires room_bound { room ≤ 1048576 }
    requires rams_bound { draft.old.tally.rams ≤ 1048576 }
    ensures { AddsRam m room cell place p draft.old draft.new result }
{
    let lit = draft.push(Driver::Ram(cell))?;
    put_literal(draft.work, m, p, lit);
    let number = 6 * m + place;
    let count = number_cell(draft.work, number, draft.tally.rams);
    draft.tally = count_rams(draft.tally, count, room)?;
    Some(())
}

// A literal becomes that of an output port, and joins the outputs where it is not among them yet.
pub fn add_output(
    draft: &mut Draft,
    outputs: &mut [u32],
    m: usize,
    p: u32,
    lit: Literal,
) -> Option<()>
    requires p_lt_m { p < m }
    requires word_in_bounds { 8 * m + lit.word < length draft.old.work.now }
    requires outputs_len_bound { length outputs.old ≤ 1048576 }
    ensures { AddsOutput m p lit.word draft.old outputs.old draft.new outputs.new result }
{
    put_literal(draft.work, m, p, lit);
    let word = lit.word;
    let mark = 8 * m + word as usize;
    let known = draft.work[mark];
    if known != 0 {
        return Some(());
    }
    let next = draft.tally.outputs as usize;
    if outputs.len() <= next {
        return None;
    }
    outputs[next] = word;
    draft.work[mark] = 1;
    draft.tally = output_made(draft.tally);
    Some(())
}
