// The numbers of records: a flip-flop's or a RAM's record stands in first-made order, and its number is kept in the work words.
#![tactic(auto)]

ghost use Rattle.std.specs.Prelude.{◌≡◌, ℕ, ◌+◌, ◌<◌, ◌≤◌, length, get_or, set};
ghost use Rattle.numbers.specs.Numbering.{counted, numbered, flops_counted, rams_counted};

use rules::Tally;
use tallies::{dff_made, ram_made};

// How many records there are once the cell at this place has one: it takes the next number where it has none yet.
pub fn number_cell(work: &mut [u32], place: usize, made: u32) -> u32
    requires place_in_bounds { place < length work.old }
    requires made_bound { made ≤ 1048576 }
    ensures value { result ≡ counted work.old place made }
    ensures work_after { work.new ≡ numbered work.old place made }
{
    let old = work[place];
    if old != 0 {
        return made;
    }
    let next = made + 1;
    work[place] = next;
    next
}

// The tallies with so many flip-flops, where there is room for them.
pub fn count_flops(t: Tally, count: u32, room: u32) -> Option<Tally>
    requires { room ≤ 1048576 }
    ensures { result ≡ flops_counted t count room }
{
    if count == t.dffs {
        return Some(t);
    }
    if room <= t.dffs {
        return None;
    }
    Some(dff_made(t))
}

// The same of RAMs.
pub fn count_rams(t: Tally, count: u32, room: u32) -> Option<Tally>
    requires { room ≤ 1048576 }
    ensures { result ≡ rams_counted t count room }
{
    if count == t.rams {
        return Some(t);
    }
    if room <= t.rams {
        return None;
    }
    Some(ram_made(t))
}
