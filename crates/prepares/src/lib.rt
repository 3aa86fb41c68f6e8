// What comes before building: the tests 3 to 10, and the work words made ready, with the events of the visits and nothing
// else in them.
#![tactic(auto)]

ghost use Rattle.rules.specs.Tables.{netlist_in};
ghost use Rattle.checks.specs.Ready.{Asked};
ghost use Rattle.prepares.specs.Prepared.{Prepared};

use checks::{checked_netlist, markers_right};
use rules::{NetlistTables, Refusal};
use words::fill;

// The tests 3 to 10, of tables that 1 and 2 let pass.
pub fn prepare(n: NetlistTables, work: &mut [u32]) -> Result<(), Refusal>
    requires { Asked n.kinds.now n.starts.now n.list.now n.pins.now work.old }
    ensures { Prepared (netlist_in n.entry) work.old work.new result }
{
    checked_netlist(n, work)?;
    if !markers_right(n, work) {
        return Err(Refusal::Marker);
    }
    let used = 2 * n.list.len();
    fill(work, 0, used, 0);
    Ok(())
}
