// 6: a net is constant or driven by an out pin on it, and an out pin drives its net.
#![tactic(auto)]

ghost use Rattle.std.specs.Prelude.{◌≡◌, ◌&&◌, ◌+◌, ◌*◌, ◌<◌, ◌≤◌, length};
ghost use Rattle.laws.specs.Lists.{every, upto};
ghost use Rattle.pins.specs.Words.{pin_at};
ghost use Rattle.nets.specs.Driven.{driven, driving, net_driven, Netted};

use pins::pin_word;

// A net is constant, or its word names an out pin on it.
fn net_driven(pins: &[u32], size: usize, driver: u32, net: usize) -> bool
    requires { 5 * size ≤ length pins.now }
    ensures { result ≡ driven pins.now size driver net }
{
    if driver < 2 {
        return true;
    }
    let p = (driver - 2) as usize;
    p < size && pin_word(pins, 3, p) == 1 && pin_word(pins, 4, p) as usize == net
}

// The same of every net.
fn nets_driven(pins: &[u32], size: usize, nets: &[u32]) -> bool
    requires { 5 * size ≤ length pins.now }
    ensures { result ≡ every (net_driven pins.now size nets.now) (upto (length nets.now)) }
{
    (0..nets.len()).all(|net| net_driven(pins, size, nets[net], net))
}

// An out pin is the one that its net names.
fn pin_drives(pins: &[u32], nets: &[u32], p: usize) -> bool
    requires p_in_bounds { 5 * p + 4 < length pins.now }
    requires p_in_bounds_2 { pin_at pins.now 4 p < length nets.now }
    ensures { result ≡ driving pins.now nets.now p }
{
    let net = pin_word(pins, 4, p) as usize;
    pin_word(pins, 3, p) != 1 || nets[net] as usize == 2 + p
}

// The same of every pin.
fn pins_drive(pins: &[u32], size: usize, nets: &[u32]) -> bool
    requires { Netted pins.now size nets.now }
    ensures { result ≡ every (driving pins.now nets.now) (upto size) }
{
    (0..size).all(|p| pin_drives(pins, nets, p))
}

// The net rule, of pins whose nets are in range.
pub fn nets_fit(pins: &[u32], size: usize, nets: &[u32]) -> bool
    requires { Netted pins.now size nets.now }
    ensures { result ≡ (every (net_driven pins.now size nets.now) (upto (length nets.now)) && every (driving pins.now nets.now) (upto size)) }
{
    nets_driven(pins, size, nets) && pins_drive(pins, size, nets)
}
