// The cells' pin lists: they lie one behind the other, each names pins of its own cell alone, and the required pins are there.
#![tactic(auto)]

ghost use Rattle.std.specs.Prelude.{◌≡◌, All, not, ◌+◌, ◌*◌, ◌<◌, ◌≤◌, length, get_or};
ghost use Rattle.laws.specs.Lists.{every, upto};
ghost use Rattle.lists.specs.Parts.{rising, laid, own, cell_list, fitting, Starts, Inside, Kinded, unnamed, must_by, musts_in, musts};

use kinds::kind_word;
use pins::pin_word;

// No list ends before it begins.
fn starts_rise(starts: &[u32], cells: usize) -> bool
    requires { cells < length starts.now }
    ensures { result ≡ rising starts.now cells }
{
    (0..cells).all(|cell| starts[cell] <= starts[cell + 1])
}

// The lists lie one behind the other, from 0 to the count of pins.
pub fn starts_fit(starts: &[u32], cells: usize, size: usize) -> bool
    requires { cells < length starts.now }
    ensures { result ≡ laid starts.now cells size }
{
    let first = starts[0];
    let last = starts[cells] as usize;
    first == 0 && last == size && starts_rise(starts, cells)
}

// The entries of a cell's list.
fn entries<'a>(starts: &[u32], list: &'a [u32], cell: usize) -> &'a [u32]
    requires cell_in_bounds { cell + 1 < length starts.now }
    requires in_order { get_or starts.now cell 0 ≤ get_or starts.now (cell + 1) 0 }
    requires end_in_bounds { get_or starts.now (cell + 1) 0 ≤ length list.now }
    ensures { result.now ≡ cell_list starts.now list.now cell }
{
    let at = starts[cell] as usize;
    let end = starts[cell + 1] as usize;
    &list[at..end]
}

// An entry of a cell's list is one of the pins, and a pin of that cell.
fn entry_fits(pins: &[u32], size: usize, cell: usize, p: u32) -> bool
    requires { 5 * size ≤ length pins.now }
    ensures { result ≡ own pins.now size cell p }
{
    let q = p as usize;
    q < size && pin_word(pins, 0, q) as usize == cell
}

// The same of all entries of a cell's list.
fn list_fits(starts: &[u32], list: &[u32], pins: &[u32], cell: usize) -> bool
    requires cell_in_bounds { cell + 1 < length starts.now }
    requires in_order { get_or starts.now cell 0 ≤ get_or starts.now (cell + 1) 0 }
    requires end_in_bounds { get_or starts.now (cell + 1) 0 ≤ length list.now }
    requires list_in_bounds { 5 * length list.now ≤ length pins.now }
    ensures { result ≡ fitting starts.now list.now pins.now cell }
{
    let own = entries(starts, list, cell);
    own.iter().all(|&p| entry_fits(pins, list.len(), cell, p))
}

// The same of every cell's list.
pub fn lists_fit(starts: &[u32], cells: usize, list: &[u32], pins: &[u32]) -> bool
    requires starts { Starts starts.now cells (length list.now) }
    requires list_in_bounds { 5 * length list.now ≤ length pins.now }
    ensures { result ≡ every (fitting starts.now list.now pins.now) (upto cells) }
{
    (0..cells).all(|cell| list_fits(starts, list, pins, cell))
}

// Whether one of the entries has a name.
fn names(entries: &[u32], pins: &[u32], name: usize) -> bool
    requires { All (λ p. 5 * p + 1 < length pins.now) entries.now }
    ensures { result ≡ not (every (unnamed pins.now name) entries.now) }
{
    entries
        .iter()
        .any(|&p| pin_word(pins, 1, p as usize) as usize == name)
}

// Where a kind requires a name, one of the entries has it.
fn must_there(entries: &[u32], pins: &[u32], kind: usize, name: usize) -> bool
    requires within { All (λ p. 5 * p + 1 < length pins.now) entries.now }
    requires kind_bound { kind < 13 }
    requires name_bound { name < 32 }
    ensures { result ≡ must_by pins.now entries.now kind name }
{
    kind_word(kind, name) / 256 != 1 || names(entries, pins, name)
}

// All names that a kind requires.
fn musts_there(entries: &[u32], pins: &[u32], kind: usize) -> bool
    requires within { All (λ p. 5 * p + 1 < length pins.now) entries.now }
    requires kind_bound { kind < 13 }
    ensures { result ≡ musts_in pins.now entries.now kind }
{
    (0..17).all(|name| must_there(entries, pins, kind, name))
}

// The required pins of a cell.
fn cell_musts(kinds: &[u32], starts: &[u32], list: &[u32], pins: &[u32], cell: usize) -> bool
    requires starts { Starts starts.now (length kinds.now) (length list.now) }
    requires inside { Inside list.now pins.now }
    requires kinded { Kinded kinds.now }
    requires cell_in_bounds { cell < length kinds.now }
    ensures { result ≡ musts kinds.now starts.now list.now pins.now cell }
{
    let own = entries(starts, list, cell);
    musts_there(own, pins, kinds[cell] as usize)
}

// The same of every cell.
pub fn musts_fit(kinds: &[u32], starts: &[u32], list: &[u32], pins: &[u32]) -> bool
    requires starts { Starts starts.now (length kinds.now) (length list.now) }
    requires inside { Inside list.now pins.now }
    requires kinded { Kinded kinds.now }
    ensures { result ≡ every (musts kinds.now starts.now list.now pins.now) (upto (length kinds.now)) }
{
    (0..kinds.len()).all(|cell| cell_musts(kinds, starts, list, pins, cell))
}
