// Step 3 of building: cells upward, each flip-flop and RAM traces its clocks, makes its ANDs, and has its record or row written.
#![tactic(auto)]

ghost use Rattle.std.specs.Prelude.{◌≡◌, ◌+◌, ◌*◌, ◌<◌, ◌≤◌, length};
ghost use Rattle.laws.specs.Words.{zeros};
ghost use Rattle.rules.specs.Tables.{netlist_in};
ghost use Rattle.rules.specs.Build.{step2};
ghost use Rattle.drafts.specs.Table.{drivers_of};
ghost use Rattle.activity.specs.Traced.{IsGoing};
ghost use Rattle.ends.specs.Ended.{CellDone, AddsEnds};

use drafts::Draft;
use flops::flop;
use memories::memory;
use rules::{Literal, NetlistTables};

// What step 3 makes of one cell.
fn cell_ends(
    n: NetlistTables,
    draft: &mut Draft,
    dffs: &mut [u32],
    rams: &mut [u32],
    cell: u32,
) -> Option<Literal>
    requires going { IsGoing (netlist_in n) draft.old }
    requires cell_in_bounds { cell < length n.kinds.now }
    requires nets_in_bounds { 3 * length (step2 (netlist_in n)).flops ≤ length dffs.old }
    requires nets_len_bound { length (step2 (netlist_in n)).rams ≤ draft.old.tally.rams }
    requires rams_in_bounds { 123 * draft.old.tally.rams ≤ length rams.old }
    requires rams_len_bound { length rams.old ≤ 123 * 1048576 }
    ensures { CellDone (netlist_in n.entry) cell draft.old dffs.old rams.old draft.new dffs.new rams.new result }
{
    let kind = n.kinds[cell as usize];
    match kind {
        8 | 9 => flop(n, draft, dffs, cell),
        11 => memory(n, draft, rams, cell),
        _ => Some(Literal { word: 0 }),
    }
}

// All cells upward.
pub fn record_ends(
    n: NetlistTables,
    draft: &mut Draft,
    dffs: &mut [u32],
    rams: &mut [u32],
) -> Option<()>
    requires going { IsGoing (netlist_in n) draft.old }
    requires drivers_value { drivers_of draft.old ≡ (step2 (netlist_in n)).drivers }
    requires rams_value { draft.old.tally.rams ≡ length (step2 (netlist_in n)).rams }
    requires dffs_value { dffs.old ≡ zeros (length dffs.old) }
    requires nets_in_bounds { 3 * length (step2 (netlist_in n)).flops ≤ length dffs.old }
    requires rams_value_2 { rams.old ≡ zeros (length rams.old) }
    requires rams_in_bounds { 123 * draft.old.tally.rams ≤ length rams.old }
    requires rams_len_bound { length rams.old ≤ 123 * 1048576 }
    requires kinds_len_bound { length n.kinds.now ≤ 1048576 }
    ensures { AddsEnds (netlist_in n.entry) draft.old dffs.old rams.old draft.new dffs.new rams.new result }
{
    for cell in 0..n.kinds.len() {
        cell_ends(n, draft, dffs, rams, cell as u32)?;
    }
    Some(())
}
