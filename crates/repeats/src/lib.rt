// No cell but the top has two pins of one name and bit: looked for in one pass over the cells' lists.
#![tactic(auto)]

ghost use Rattle.std.specs.Prelude.{◌≡◌, ◌+◌, ◌*◌, ◌<◌, length};
ghost use Rattle.marks.specs.Marking.{Clear};
ghost use Rattle.repeats.specs.Alike.{code_of, Stamped, Sorted, Looked};

use pins::pin_word;

// A pin's name and bit as one number.
fn pin_code(pins: &[u32], p: usize) -> usize
    requires { 5 * p + 4 < length pins.now }
    ensures { result ≡ code_of pins.now p }
{
    let name = pin_word(pins, 1, p) as usize;
    let bit = pin_word(pins, 2, p) as usize;
    32 * name + bit
}

// A cell leaves its number at a place, but the top leaves none. No where its number stands there already.
fn stamp(work: &mut [u32], at: usize, cell: u32) -> bool
    requires { at < length work.old }
    ensures { Stamped work.old at cell work.new result }
{
    if cell == 0 {
        return true;
    }
    if work[at] == cell {
        return false;
    }
    work[at] = cell;
    true
}

// The lists have the cells in rising order, so the number at a code is that of the last cell that has it.
pub fn none_twice(list: &[u32], pins: &[u32], work: &mut [u32], base: usize) -> bool
    requires sorted { Sorted list.now pins.now }
    requires clear { Clear work.old base 544 }
    ensures { Looked list.now pins.now result }
{
    for &entry in list {
        let p = entry as usize;
        let code = pin_code(pins, p);
        let cell = pin_word(pins, 0, p);
        if !stamp(work, base + code, cell) {
            return false;
        }
    }
    true
}
