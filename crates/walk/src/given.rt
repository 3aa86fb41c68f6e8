// Lists of pins that are handed in: whether each is in range, and whether those handed on are a set.
ghost use Rattle.std.specs.Prelude.{◌≡◌, [], ◌*◌, ◌≤◌, length};
ghost use Rattle.laws.specs.Words.{AllBelow};
ghost use Rattle.rules.specs.Refusals.{below};
ghost use Rattle.walk.specs.State.{Stops, StopsSet};

use words::word;

// Is each word below m?
pub fn all_below(s: &[u32], m: usize) -> bool
    ensures { result ≡ below m s.now }
{
    for &x in s {
        if m <= (x as usize) {
            return false;
        }
    }
    true
}

// The stop of each handed-on pin is set; does none repeat? A repeat meets its own stop, so the stops met are counted.
pub fn set_stops(handed: &[u32], work: &mut [u32], m: usize) -> bool
    requires all_below { AllBelow m handed.now }
    requires m_in_bounds { 2 * m ≤ length work.old }
    requires stops { Stops work.old m [] }
    ensures { StopsSet m handed.now work.old work.new result }
{
    let mut repeats: usize = 0;
    for &p in handed {
        let at = m + (p as usize);
        let met = word(work, at);
        work[at] = 1;
        repeats += met as usize;
    }
    repeats == 0
}
