// The depth-first walk over a driver table. With m = pins + 1 the work words hold, one for each pin: marks from 0, stops
// from m (not 0 where the walk does not go past), the stack from 2 * m, and the pins listed from 3 * m. Words from 4 * m on
// are the caller's.
#![tactic(auto)]

ghost use Rattle.std.specs.Prelude.{◌+◌, ◌*◌, ◌<◌, ◌≤◌, length};
ghost use Rattle.laws.specs.Words.{AllBelow};
ghost use Rattle.walk.specs.State.{Listing, Going, Next, Turned, Visited, AllVisited, Forgotten, Operands};

use words::word;

pub mod fit; // fit.rt: whether a driver table is one (refusal 12, what speaks of drivers)
pub mod given; // given.rt: lists of pins that are handed in (refusal 15), and the stops that they set

// A place in a walk: the stack's height, and how many pins are listed.
#[derive(Clone, Copy)]
struct Place {
    height: usize,
    count: usize,
}

// The first operand of the pin p that has no mark, else the second; 0 where there is none, or p is no gate or not gone past.
fn next(drivers: &[u32], work: &[u32], m: usize, p: usize) -> u32
    requires operands { Operands drivers.now m }
    requires p_lt_m { p < m }
    requires m_in_bounds { 3 * m ≤ length drivers.now }
    requires m_in_bounds_2 { 4 * m ≤ length work.now }
    ensures { Next drivers.now m work.now p result }
{
    let at = 3 * p;
    let t = word(drivers, at);
    if t != 1 {
        return 0;
    }
    let s = word(work, m + p);
    if s != 0 {
        return 0;
    }
    let a = word(drivers, at + 1);
    let x = a / 2;
    let mark = word(work, x as usize);
    if mark == 0 {
        return x;
    }
    let b = word(drivers, at + 2);
    let y = b / 2;
    let mark2 = word(work, y as usize);
    if mark2 == 0 {
        return y;
    }
    0
}

// One turn: an operand that is not listed yet goes on the stack; where there is none, the top is listed and taken off.
fn turn(drivers: &[u32], work: &mut [u32], m: usize, at: Place) -> Place
    requires going { Going drivers.now m work.old at.height at.count }
    requires height_nonzero { 0 < at.height }
    ensures { Turned drivers.now m work.old at.height at.count work.new result.height result.count }
{
    let h = at.height;
    let k = at.count;
    let top = 2 * m + h - 1;
    let t = word(work, top);
    let p = t as usize;
    let x = next(drivers, work, m, p);
    if x == 0 {
        let last = 3 * m + k;
        work[p] = 1;
        work[top] = 0;
        work[last] = t;
        Place {
            height: h - 1,
            count: k + 1,
        }
    } else {
        let above = 2 * m + h;
        work[above] = x;
        Place {
            height: h + 1,
            count: k,
        }
    }
}

// A visit of the pin root, where count pins are listed; how many are listed then.
pub fn visit(drivers: &[u32], work: &mut [u32], m: usize, count: usize, root: u32) -> usize
    requires going { Going drivers.now m work.old 0 count }
    requires root_lt_m { root < m }
    ensures { Visited drivers.now m work.old count root work.new result }
{
    let mark = word(work, root as usize);
    if mark != 0 {
        return count;
    }
    let bottom = 2 * m;
    work[bottom] = root;
    let mut at = Place { height: 1, count };
    while 0 < at.height {
        at = turn(drivers, work, m, at);
    }
    at.count
}

// The visits of all roots in turn.
pub fn visit_all(drivers: &[u32], roots: &[u32], work: &mut [u32], m: usize, count: usize) -> usize
    requires going { Going drivers.now m work.old 0 count }
    requires all_below { AllBelow m roots.now }
    ensures { AllVisited drivers.now m roots.now work.old count work.new result }
{
    let mut k = count;
    for &root in roots {
        k = visit(drivers, work, m, k, root);
    }
    k
}

// The marks and the places of the count pins listed are 0 again, so that a later walk can begin.
pub fn forget(work: &mut [u32], m: usize, count: usize)
    requires { Listing m work.old count }
    ensures { Forgotten m work.old work.new }
{
    for i in 0..count {
        let at = 3 * m + i;
        let p = word(work, at);
        work[p as usize] = 0;
        work[at] = 0;
    }
}
