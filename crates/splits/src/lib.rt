// One split: what a stage takes and what it hands on, written behind what its tables hold already. With m = pins + 1 the
// work words hold the walk (to 4 * m), levels, readers, the set of pins with its places, and from 8 * m the endpoints left.
#![tactic(auto)]

ghost use Rattle.std.specs.Prelude.{◌≡◌, ◌+◌, ◌*◌, ◌<◌, ◌≤◌};
ghost use Rattle.laws.specs.Words.{part};
ghost use Rattle.rules.specs.Answers.{endpoints};
ghost use Rattle.walk.specs.State.{Going};
ghost use Rattle.members.specs.Set.{SetIn};
ghost use Rattle.reads.specs.Reads.{LentIn};
ghost use Rattle.levels.specs.State.{Known, ReadsFitIn};
ghost use Rattle.joins.specs.State.{Takens};
ghost use Rattle.picks.specs.Tables.{Open};
ghost use Rattle.splits.specs.State.{Idle, PreparedIn, WorkedOutIn, CutOffIn};

use joins::{join_all, read_taken};
use levels::{level_all, visit_left};
use picks::{hand_on, take_all};
use rules::GraphTables;

// The visits, the levels and the readers; how many pins are listed.
fn gather(g: GraphTables, work: &mut [u32], m: usize, left: usize) -> usize
    requires lent { LentIn g.ends }
    requires reads_fit { ReadsFitIn g.ends m }
    requires idle { Idle g.drivers.now m (endpoints g.ends.counts) work.old left }
    ensures { PreparedIn g.entry m work.old left work.new result }
{
    let k = visit_left(g, work, m, left);
    level_all(g.drivers, work, m, k);
    k
}

// All low pins join, and the endpoints taken have read their inputs; how many pins the set has then.
fn work_out(
    g: GraphTables,
    taken: &[u32],
    first: usize,
    count: usize,
    work: &mut [u32],
    m: usize,
    d: u32,
    k: usize,
) -> usize
    requires lent { LentIn g.ends }
    requires reads_fit { ReadsFitIn g.ends m }
    requires takens { Takens taken.now first count (endpoints g.ends.counts) }
    requires known { Known g.drivers.now m work.old }
    requires going { Going g.drivers.now m work.old 0 k }
    requires set_in { SetIn work.old (6 * m) m 0 }
    ensures { WorkedOutIn g.entry (part taken.now first count) m d k work.old work.new result }
{
    let size = join_all(g.drivers, work, m, d, k);
    read_taken(g.ends, taken, first, count, work, m, size)
}

// What a split is asked with: one more than the pins, the difference of levels, how many endpoints are left, and how many
// words of the two tables are used.
#[derive(Drop)]
pub struct Spot {
    pub m: usize,
    pub d: u32,
    pub left: usize,
    pub handed: usize,
    pub taken: usize,
}

// What it leaves: how many pins are listed and how many the set has, and how many words of the tables are used then.
#[derive(Drop)]
pub struct Piece {
    pub listed: usize,
    pub size: usize,
    pub handed: usize,
    pub taken: usize,
}

// A table has too little room; how many pins are listed all the same.
#[derive(Clone, Copy)]
pub struct Narrow {
    pub listed: usize,
}

// One split of the endpoints left, also where they read nothing.
pub fn cut(
    g: GraphTables,
    work: &mut [u32],
    handed: &mut [u32],
    taken: &mut [u32],
    at: Spot,
) -> Result<Piece, Narrow>
    requires lent { LentIn g.ends }
    requires reads_fit { ReadsFitIn g.ends at.m }
    requires idle { Idle g.drivers.now at.m (endpoints g.ends.counts) work.old at.left }
    requires fact { Open handed.old at.handed }
    requires fact_2 { Open taken.old at.taken }
    ensures { CutOffIn g.entry at work.old handed.old taken.old work.new handed.new taken.new result }
{
    let m = at.m;
    let d = at.d;
    let first = at.taken;
    let k = gather(g, work, m, at.left);
    let Some(t) = take_all(g.ends, work, m, d, at.left, taken, first) else {
        return Err(Narrow { listed: k });
    };
    let count = t - first;
    let size = work_out(g, taken, first, count, work, m, d, k);
    let Some(h) = hand_on(work, m, size, handed, at.handed) else {
        return Err(Narrow { listed: k });
    };
    Ok(Piece {
        listed: k,
        size,
        handed: h,
        taken: t,
    })
}
