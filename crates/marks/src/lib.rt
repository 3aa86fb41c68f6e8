// Sets of numbers as marks in lent words: one word a number, 1 where it is in the set.
#![tactic(auto)]

ghost use Rattle.std.specs.Prelude.{◌≡◌, ℕ, ◌+◌, ◌<◌, ◌≤◌, length, get_or};
ghost use Rattle.marks.specs.Marking.{Clear, Marked, MarkedAll};

// A number joins the set whose marks lie from base on. No where it is out of range, or is in the set already.
pub fn mark_new(work: &mut [u32], base: usize, limit: usize, p: u32) -> bool
    requires { base + limit ≤ length work.old }
    ensures { Marked work.old base limit p work.new result }
{
    let i = p as usize;
    if limit <= i || work[base + i] != 0 {
        return false;
    }
    work[base + i] = 1;
    true
}

// All numbers of a list join an empty set. No where one is out of range or repeats.
pub fn mark_list(list: &[u32], work: &mut [u32], base: usize, limit: usize) -> bool
    requires { Clear work.old base limit }
    ensures { MarkedAll list.now work.old base limit work.new result }
{
    for &p in list {
        if !mark_new(work, base, limit, p) {
            return false;
        }
    }
    true
}
