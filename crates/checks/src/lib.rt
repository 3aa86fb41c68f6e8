// The tests of a netlist in document 01's order: 1 to 9, and 1 to 10, as calls on any tables; and the parts that building asks
// for. With m pins the visits' marks lie from 0, the stack and then the markers from m, the events from 2 * m.
#![tactic(auto)]

ghost use Rattle.std.specs.Prelude.{◌≡◌, OnOk, length};
ghost use Rattle.laws.specs.Words.{zeros};
ghost use Rattle.rules.specs.Answers.{done_of, check_netlist_number, check_all_number};
ghost use Rattle.rules.specs.Tables.{netlist_in};
ghost use Rattle.roles.specs.Reading.{Fits};
ghost use Rattle.orders.specs.State.{Fresh};
ghost use Rattle.markers.specs.Marks.{LaidOut};
ghost use Rattle.checks.specs.Ready.{sizes_number, Asked, Readied, Sound, Checked, Tested};

use clocks::numbers::test_clocks;
use markers::mark_all;
use netlist::{netlist_long, netlist_within, test_tables};
use orders::visit_order;
use rules::{NetlistCounts, NetlistTables, Refusal};
use unmarked::markers_free;
use words::zero;

// 7, then 8 and 9, of tables that 1 to 6 accept. Where none refuses, the events of the visits stand in the work words.
pub fn ready_netlist(n: NetlistTables, work: &mut [u32]) -> Result<(), Refusal>
    requires fits { Fits (netlist_in n) }
    requires fresh { Fresh (length n.list.now) work.old }
    ensures { Readied (netlist_in n.entry) work.old work.new result }
{
    visit_order(n, work)?;
    test_clocks(n)
}

// Whether 10 lets pass, by the events. The markers stand in the work words, and the events still do.
pub fn markers_right(n: NetlistTables, work: &mut [u32]) -> bool
    requires fits { Fits (netlist_in n) }
    requires laid_out { LaidOut (netlist_in n) work.old }
    ensures { Tested (netlist_in n.entry) work.old work.new result }
{
    mark_all(n, work);
    markers_free(n, work)
}

// 3 to 9, of tables that 1 and 2 let pass. Where none refuses, the events stand in the work words.
pub fn checked_netlist(n: NetlistTables, work: &mut [u32]) -> Result<(), Refusal>
    requires { Asked n.kinds.now n.starts.now n.list.now n.pins.now work.old }
    ensures { Checked (netlist_in n.entry) work.new result }
{
    test_tables(n, work)?;
    zero(work);
    ready_netlist(n, work)
}

// 1 and 2, by the lengths of the tables and of the work words.
fn test_sizes(c: NetlistCounts, n: NetlistTables, work: usize) -> Result<(), Refusal>
    ensures { result ≡ done_of (sizes_number c (length n.entry.kinds.now) (length n.entry.starts.now) (length n.entry.list.now) (length n.entry.pins.now) (length n.entry.nets.now) work) }
{
    if !netlist_within(c) {
        return Err(Refusal::Bounds);
    }
    let long = netlist_long(
        c,
        n.kinds.len(),
        n.starts.len(),
        n.list.len(),
        n.pins.len(),
        n.nets.len(),
    );
    let room = 8 * c.pins as usize + 1024;
    if !long || work < room {
        return Err(Refusal::Lengths);
    }
    Ok(())
}

// 1 and 2, then 3 to 9. Where none refuses, the events stand in the work words.
fn test_to_nine(c: NetlistCounts, n: NetlistTables, work: &mut [u32]) -> Result<(), Refusal>
    requires { work.old ≡ zeros (length work.old) }
    ensures answer { result ≡ done_of (check_netlist_number c (netlist_in n.entry) (length work.old)) }
    ensures sound { OnOk result (Sound (netlist_in n.entry) work.new) }
{
    test_sizes(c, n, work.len())?;
    checked_netlist(n, work)
}

// The same, then 10.
fn test_to_ten(c: NetlistCounts, n: NetlistTables, work: &mut [u32]) -> Result<(), Refusal>
    requires { work.old ≡ zeros (length work.old) }
    ensures { result ≡ done_of (check_all_number c (netlist_in n.entry) (length work.old)) }
{
    test_to_nine(c, n, work)?;
    if !markers_right(n, work) {
        return Err(Refusal::Marker);
    }
    Ok(())
}

// The netlist check, tests 1 to 9: any tables, however broken, and work words of any content.
pub fn check_netlist(c: NetlistCounts, n: NetlistTables, work: &mut [u32]) -> Result<(), Refusal>
    ensures answer { result ≡ done_of (check_netlist_number c (netlist_in n.entry) (length work.old)) }
    ensures zero { work.new ≡ zeros (length work.old) }
{
    zero(work);
    let outcome = test_to_nine(c, n, work);
    zero(work);
    outcome
}

// The same with test 10: all that turns a netlist away from building, whatever the rooms.
pub fn check_all(c: NetlistCounts, n: NetlistTables, work: &mut [u32]) -> Result<(), Refusal>
    ensures answer { result ≡ done_of (check_all_number c (netlist_in n.entry) (length work.old)) }
    ensures zero { work.new ≡ zeros (length work.old) }
{
    zero(work);
    let outcome = test_to_ten(c, n, work);
    zero(work);
    outcome
}
