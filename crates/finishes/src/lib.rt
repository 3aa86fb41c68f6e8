// The end of building: the literals leave the work words for their table, and the fanouts are listed.
#![tactic(auto)]

ghost use Rattle.std.specs.Prelude.{◌≡◌, ℕ, ◌+◌, ◌*◌, ◌<◌, ◌≤◌, length};
ghost use Rattle.laws.specs.Words.{zeros, part};
ghost use Rattle.walk.specs.State.{Operands};
ghost use Rattle.fanouts.specs.Fans.{Fanned};

use fanouts::fan_out;
use words::copy;

// Whether the fanouts have room. The literals lie from 7 * m on.
pub fn finish(
    drivers: &[u32],
    work: &[u32],
    literals: &mut [u32],
    starts: &mut [u32],
    lists: &mut [u32],
    pins: u32,
) -> bool
    requires literals_in_bounds { 8 * length literals.old ≤ length work.now }
    requires pins_bound { pins ≤ 16777215 }
    requires pins_in_bounds { 3 * (pins + 1) ≤ length drivers.now }
    requires operands { Operands drivers.now (pins + 1) }
    requires pins_in_bounds_2 { pins + 2 ≤ length starts.old }
    requires starts_value { starts.old ≡ zeros (length starts.old) }
    requires lists_value { lists.old ≡ zeros (length lists.old) }
    ensures fanned { Fanned drivers.now pins starts.old lists.old starts.new lists.new result }
    ensures literals_after { literals.new ≡ part work.now (7 * length literals.old) (length literals.old) }
{
    let m = literals.len();
    let from = 7 * m;
    copy(work, from, literals, 0, m);
    fan_out(drivers, pins, starts, lists)
}
