// A flip-flop in step 3: its clock traced, the four ANDs of its record, and the record in its table.
#![tactic(auto)]

ghost use Rattle.std.specs.Prelude.{◌≡◌, [], ◌∷◌, ◌+◌, ◌*◌, ◌<◌, ◌≤◌, length, get_or};
ghost use Rattle.laws.proofs.Indices.{place};
ghost use Rattle.rules.specs.Netlist.{dff};
ghost use Rattle.rules.specs.Tables.{netlist_in};
ghost use Rattle.rules.specs.Build.{step2};
ghost use Rattle.words.proofs.Tables.{Writing};
ghost use Rattle.roles.specs.Reading.{kind_at};
ghost use Rattle.drafts.specs.Table.{drivers_of, Open};
ghost use Rattle.activity.specs.Traced.{IsGoing};
ghost use Rattle.flops.specs.Flopped.{Known, Doubles, flop_both, flop_made, FlopDone};

use activity::clock_activity;
use drafts::Draft;
use literals::named_literal;
use rules::{Literal, NetlistTables};
use words::word;

// Two literals made one after the other.
#[derive(Clone, Copy)]
pub struct Pair {
    pub first: Literal,
    pub second: Literal,
}

// The four ANDs of a record, of the literals of D, the clock's activity, S and R: "d or not s" and "a or not s", then
// the first of them "and r" and the second "or not r".
fn flop_gates(draft: &mut Draft, d: Literal, a: Literal, s: Literal, r: Literal) -> Option<Pair>
    requires { Open draft.old }
    ensures { Doubles (flop_both (drivers_of draft.old) d.word a.word s.word r.word) draft.old draft.new result }
{
    let set_next = draft.or_not(d, s)?;
    let set_enable = draft.or_not(a, s)?;
    let next = draft.and_of(set_next, r)?;
    let enable = draft.or_not(set_enable, r)?;
    Some(Pair {
        first: next,
        second: enable,
    })
}

// The literals of next and enable of a flip-flop cell.
fn flop_pair(n: NetlistTables, draft: &mut Draft, cell: u32) -> Option<Pair>
    requires going { IsGoing (netlist_in n) draft.old }
    requires cell_in_bounds { cell < length n.kinds.now }
    requires cell_value { kind_at (get_or n.kinds.now cell 0) ≡ dff }
    ensures { Doubles (flop_made (netlist_in n.entry) (drivers_of draft.old) cell) draft.old draft.new result }
{
    let d = named_literal(n, draft, cell, 4, 0);
    let s = named_literal(n, draft, cell, 6, 1);
    let r = named_literal(n, draft, cell, 7, 1);
    let clock = clock_activity(n, draft, cell, 5, 5, 0)?;
    flop_gates(draft, d, clock, s, r)
}

// Where a flip-flop's record stands in the table.
fn flop_place(n: NetlistTables, draft: &Draft, cell: u32) -> usize
    requires known { Known (netlist_in n) draft.now.work.now }
    requires cell_in_bounds { cell < length n.kinds.now }
    requires cell_value { kind_at (get_or n.kinds.now cell 0) ≡ dff }
    ensures { result ≡ place cell (step2 (netlist_in n.entry)).flops }
{
    let m = n.list.len();
    let start = word(n.starts, cell as usize) as usize;
    let number = word(draft.work, 6 * m + start) as usize;
    number - 1
}

// A flip-flop's own pin.
fn flop_pin(n: NetlistTables, draft: &Draft, cell: u32) -> u32
    requires known { Known (netlist_in n) draft.now.work.now }
    requires cell_in_bounds { cell < length n.kinds.now }
    requires cell_value { kind_at (get_or n.kinds.now cell 0) ≡ dff }
    ensures { result ≡ (step2 (netlist_in n.entry)).flop_pin cell }
{
    let m = n.list.len();
    let start = word(n.starts, cell as usize) as usize;
    word(draft.work, m + start)
}

// The three words of a record, at a place of the table.
fn put_record(dffs: &mut [u32], k: usize, next: u32, enable: u32, pin: u32)
    requires { 3 * k + 3 ≤ length dffs.old }
    ensures { Writing dffs.old (3 * k) (λ j. get_or (next ∷ enable ∷ pin ∷ []) j 0) 3 dffs.new }
{
    let a = 3 * k;
    dffs[a] = next;
    dffs[a + 1] = enable;
    dffs[a + 2] = pin;
}

// A flip-flop cell: what is made, and its record in the table.
pub fn flop(n: NetlistTables, draft: &mut Draft, dffs: &mut [u32], cell: u32) -> Option<Literal>
    requires going { IsGoing (netlist_in n) draft.old }
    requires cell_in_bounds { cell < length n.kinds.now }
    requires cell_value { kind_at (get_or n.kinds.now cell 0) ≡ dff }
    requires nets_in_bounds { 3 * length (step2 (netlist_in n)).flops ≤ length dffs.old }
    ensures { FlopDone (netlist_in n.entry) cell draft.old dffs.old draft.new dffs.new result }
{
    let k = flop_place(n, draft, cell);
    let pin = flop_pin(n, draft, cell);
    let pair = flop_pair(n, draft, cell)?;
    put_record(dffs, k, pair.first.word, pair.second.word, pin);
    Some(pair.second)
}
