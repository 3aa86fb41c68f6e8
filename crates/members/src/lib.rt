// The ordered set in lent words: its members, in order, lie from a on; from a + cap on lies, for each number below cap, its
// place plus 1, or 0 where it is not in. A member that leaves is replaced by the last one.
#![tactic(auto)]

ghost use Rattle.std.specs.Prelude.{◌≡◌, ℕ, ◌+◌, ◌<◌, ◌≤◌, length};
ghost use Rattle.laws.specs.Words.{AllBelow};
ghost use Rattle.members.specs.Set.{SetIn, Inserted, Removed, InsertedAll, FilledUp};

use words::word;

// x joins at the end, where it is not in; how many members there are then.
pub fn insert(work: &mut [u32], a: usize, cap: usize, n: usize, x: u32) -> usize
    requires set_in { SetIn work.old a cap n }
    requires x_lt_cap { x < cap }
    ensures { Inserted work.old a cap n x work.new result }
{
    let at = a + cap + (x as usize);
    let place = word(work, at);
    if place != 0 {
        return n;
    }
    let more = n + 1;
    let end = a + n;
    work[end] = x;
    work[at] = more as u32;
    more
}

// x leaves, where it is in, and the last member takes its place; how many members there are then.
pub fn remove(work: &mut [u32], a: usize, cap: usize, n: usize, x: u32) -> usize
    requires set_in { SetIn work.old a cap n }
    requires x_lt_cap { x < cap }
    ensures { Removed work.old a cap n x work.new result }
{
    let at = a + cap + (x as usize);
    let place = word(work, at);
    if place == 0 {
        return n;
    }
    let fewer = n - 1;
    let end = a + fewer;
    let last = word(work, end);
    let hole = a + ((place as usize) - 1);
    let moved = a + cap + (last as usize);
    work[hole] = last;
    work[moved] = place;
    work[at] = 0;
    work[end] = 0;
    fewer
}

// Each of a list joins an empty set in turn; how many members there are then.
pub fn insert_all(list: &[u32], work: &mut [u32], a: usize, cap: usize) -> usize
    requires set_in { SetIn work.old a cap 0 }
    requires all_below { AllBelow cap list.now }
    ensures { InsertedAll list.now work.old a cap work.new result }
{
    let mut n = 0;
    for &x in list {
        n = insert(work, a, cap, n, x);
    }
    n
}

// All numbers below cap join an empty set, upward.
pub fn fill_up(work: &mut [u32], a: usize, cap: usize)
    requires { SetIn work.old a cap 0 }
    ensures { FilledUp work.old a cap work.new }
{
    let mut n = 0;
    for i in 0..cap {
        n = insert(work, a, cap, n, i as u32);
    }
}
