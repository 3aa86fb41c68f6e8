// 1 and 2 of building: counts and rooms within their bounds, and tables of the lengths that follow from them.
#![tactic(auto)]

ghost use Rattle.std.specs.Prelude.{◌≡◌};
ghost use Rattle.rules.specs.Bounds.{rooms_within};
ghost use Rattle.rules.specs.Answers.{done_of};
ghost use Rattle.sizes.specs.Lengths.{records_long, results_long, sizes_number};

use netlist::{netlist_long, netlist_within};
use rules::{NetlistCounts, Refusal, Rooms};

// How long the tables are that a caller lends to building.
#[derive(Clone, Copy)]
pub struct Sizes {
    pub kinds: usize,
    pub starts: usize,
    pub list: usize,
    pub pins: usize,
    pub nets: usize,
    pub drivers: usize,
    pub outputs: usize,
    pub dffs: usize,
    pub rams: usize,
    pub literals: usize,
    pub fanout_starts: usize,
    pub fanouts: usize,
    pub work: usize,
}

// 1 of the rooms.
fn rooms_within(rooms: Rooms) -> bool
    ensures { result ≡ rooms_within rooms }
{
    rooms.pins <= 16777215
        && rooms.outputs <= 1048576
        && rooms.dffs <= 1048576
        && rooms.rams <= 1048576
        && rooms.fanouts <= 33554430
}

// 2 of the graph's tables: three words a pin and a flip-flop record, 123 a RAM.
#[tactic(auto, unfolding(crate::specs::Lengths::records_long))]
fn records_long(rooms: Rooms, s: Sizes) -> bool
    ensures { result ≡ records_long rooms s }
{
    let pins = rooms.pins as usize;
    s.drivers == 3 * (pins + 1)
        && s.outputs == rooms.outputs as usize
        && s.dffs == 3 * rooms.dffs as usize
        && s.rams == 123 * rooms.rams as usize
}

// 2 of the other tables and the work words.
#[tactic(auto, unfolding(crate::specs::Lengths::results_long))]
fn results_long(c: NetlistCounts, rooms: Rooms, s: Sizes) -> bool
    ensures { result ≡ results_long c rooms s }
{
    let size = c.pins as usize;
    let pins = rooms.pins as usize;
    s.literals == size
        && s.fanout_starts == pins + 2
        && s.fanouts == rooms.fanouts as usize
        && 8 * size + 8 * pins + 1024 <= s.work
}

// 1, then 2.
#[tactic(auto, unfolding(crate::specs::Lengths::sizes_number))]
pub fn test_sizes(c: NetlistCounts, rooms: Rooms, s: Sizes) -> Result<(), Refusal>
    ensures { result ≡ done_of (sizes_number c rooms s) }
{
    if !netlist_within(c) || !rooms_within(rooms) {
        return Err(Refusal::Bounds);
    }
    let lent = netlist_long(c, s.kinds, s.starts, s.list, s.pins, s.nets);
    if !lent || !records_long(rooms, s) || !results_long(c, rooms, s) {
        return Err(Refusal::Lengths);
    }
    Ok(())
}
