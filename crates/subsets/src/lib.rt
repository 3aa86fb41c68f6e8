// Endpoints by number, the whole graph as one stage, and subsets of a stage: the calls that read no driver.
#![tactic(auto)]

ghost use Rattle.std.specs.Prelude.{◌≡◌, true, ℕ, ◌+◌, ◌*◌, ◌<◌, ◌≤◌, length};
ghost use Rattle.laws.specs.Lists.{upto};
ghost use Rattle.laws.specs.Words.{zeros, filled, part};
ghost use Rattle.rules.specs.Bounds.{graph_within};
ghost use Rattle.rules.specs.Stages.{endpoint_by};
ghost use Rattle.rules.specs.Answers.{answer_of, done_of, endpoints, endpoint_number, full_number, subset_number};
ghost use Rattle.subsets.specs.Answer.{stage_of, staged_there, staged_number, staged_by, leading, all_from, lists_fit, places_number, placed, Places, Ready, FullStaged, Subsetted};

use rules::{Endpoint, GraphCounts, Refusal, StageSize};
use walk::given::all_below;
use words::{word, zero};

// How many endpoints there are: output literals, flip-flops and RAMs.
pub fn num_endpoint_groups(c: GraphCounts) -> usize
    ensures { result ≡ endpoints c }
{
    (c.outputs as usize) + (c.dffs as usize) + (c.rams as usize)
}

// 1: are the counts of a graph within their bounds?
pub fn counts_fit(c: GraphCounts) -> bool
    ensures { result ≡ graph_within c }
{
    c.pins <= 16777215 && c.outputs <= 1048576 && c.dffs <= 1048576 && c.rams <= 1048576
}

// The endpoint of a number below the count.
fn endpoint_by(c: GraphCounts, e: u32) -> Endpoint
    ensures { result ≡ endpoint_by c.outputs c.dffs e }
{
    if e < c.outputs {
        return Endpoint::Output(e);
    }
    let past = e - c.outputs;
    if past < c.dffs {
        return Endpoint::Flop(past);
    }
    Endpoint::Memory(past - c.dffs)
}

// An endpoint of a graph by its number.
pub fn get_endpoint_group(c: GraphCounts, e: u32) -> Result<Endpoint, Refusal>
    ensures { result ≡ answer_of (endpoint_number c e) (endpoint_by c.outputs c.dffs e) }
{
    if !counts_fit(c) {
        return Err(Refusal::Bounds);
    }
    let n = num_endpoint_groups(c);
    if n <= (e as usize) {
        return Err(Refusal::Index);
    }
    Ok(endpoint_by(c, e))
}

// Does a place of a stage name a handed-on pin, or an endpoint that is taken and is one of the graph?
fn is_there(c: GraphCounts, handed: usize, taken: &[u32], i: usize) -> bool
    ensures { result ≡ staged_there c handed taken.now i }
{
    if i < handed {
        return true;
    }
    let k = i - handed;
    k < taken.len() && (taken[k] as usize) < num_endpoint_groups(c)
}

// The endpoint at a place that is there.
fn staged_by(c: GraphCounts, handed: &[u32], taken: &[u32], i: usize) -> Endpoint
    requires { staged_there c (length handed.now) taken.now i ≡ true }
    ensures { result ≡ staged_by c (stage_of handed.now taken.now) i }
{
    if i < handed.len() {
        return Endpoint::Handed(word(handed, i));
    }
    let k = i - handed.len();
    endpoint_by(c, word(taken, k))
}

// An endpoint of a stage by its place: its handed-on pins, then the endpoints that it takes.
pub fn staged_endpoint_group(
    c: GraphCounts,
    handed: &[u32],
    taken: &[u32],
    i: usize,
) -> Result<Endpoint, Refusal>
    ensures { result ≡ answer_of (staged_number c (stage_of handed.now taken.now) i) (staged_by c (stage_of handed.now taken.now) i) }
{
    if !counts_fit(c) {
        return Err(Refusal::Bounds);
    }
    if 16777215 < handed.len() {
        return Err(Refusal::Bounds);
    }
    if 16777215 < taken.len() {
        return Err(Refusal::Bounds);
    }
    if !is_there(c, handed.len(), taken, i) {
        return Err(Refusal::Index);
    }
    Ok(staged_by(c, handed, taken, i))
}

// The numbers below n, upward, into words that are 0.
pub fn count_up(to: &mut [u32], n: usize)
    requires to_value { to.old ≡ zeros (length to.old) }
    requires n_in_bounds { n ≤ length to.old }
    requires n_bound { n ≤ 3145728 }
    ensures { to.new ≡ filled (upto n) (length to.old) }
{
    for i in 0..n {
        to[i] = i as u32;
    }
}

// 1 and 11 of the whole graph as one stage.
fn test_full(c: GraphCounts, room: usize) -> Result<(), Refusal>
    ensures { result ≡ done_of (full_number c room) }
{
    if !counts_fit(c) {
        return Err(Refusal::Bounds);
    }
    if 16777215 < room {
        return Err(Refusal::Bounds);
    }
    let n = num_endpoint_groups(c);
    if room < n {
        return Err(Refusal::Room);
    }
    Ok(())
}

// The whole graph as one stage: it takes every endpoint and hands nothing on.
pub fn from_full_aig(c: GraphCounts, taken: &mut [u32]) -> Result<StageSize, Refusal>
    ensures { FullStaged c taken.old taken.new result }
{
    zero(taken);
    test_full(c, taken.len())?;
    let n = num_endpoint_groups(c);
    count_up(taken, n);
    Ok(StageSize {
        handed: 0,
        taken: n as u32,
    })
}

// How many places before the first that is not below h.
fn leading_places(is: &[u32], h: usize) -> usize
    ensures { result ≡ leading h is.now }
{
    for (i, &p) in is.iter().enumerate() {
        if h <= (p as usize) {
            return i;
        }
    }
    is.len()
}

// Is each word from a place on at least h?
fn all_from(is: &[u32], a: usize, h: usize) -> bool
    requires { a ≤ length is.now }
    ensures { result ≡ all_from is.now a h }
{
    for i in a..is.len() {
        let p = word(is, i);
        if (p as usize) < h {
            return false;
        }
    }
    true
}

// 1: are the lists and the rooms within their bounds?
fn lists_fit(handed: usize, taken: usize, is: usize, handed_room: usize, taken_room: usize) -> bool
    ensures { result ≡ lists_fit handed taken is handed_room taken_room }
{
    handed <= 16777215
        && taken <= 16777215
        && is <= 16777215
        && handed_room <= 16777215
        && taken_room <= 16777215
}

// 15 and 11 of a subset, where the first n places are those of handed-on pins.
fn test_places(
    handed: usize,
    taken: usize,
    is: &[u32],
    n: usize,
    handed_room: usize,
    taken_room: usize,
) -> Result<(), Refusal>
    requires n_value { n ≡ leading handed is.now }
    requires handed_bound { handed ≤ 16777215 }
    requires taken_bound { taken ≤ 16777215 }
    ensures { result ≡ done_of (places_number handed taken is.now handed_room taken_room) }
{
    let past = handed + taken;
    let rest = is.len() - n;
    if !all_below(is, past) {
        return Err(Refusal::Index);
    }
    if !all_from(is, n, handed) {
        return Err(Refusal::Index);
    }
    if handed_room < n {
        return Err(Refusal::Room);
    }
    if taken_room < rest {
        return Err(Refusal::Room);
    }
    Ok(())
}

// 1, 15 and 11 of a subset.
fn test_subset(
    handed: &[u32],
    taken: &[u32],
    is: &[u32],
    n: usize,
    handed_room: usize,
    taken_room: usize,
) -> Result<(), Refusal>
    requires { n ≡ leading (length handed.now) is.now }
    ensures { result ≡ done_of (subset_number (stage_of handed.now taken.now) is.now handed_room taken_room) }
{
    if !lists_fit(handed.len(), taken.len(), is.len(), handed_room, taken_room) {
        return Err(Refusal::Bounds);
    }
    test_places(handed.len(), taken.len(), is, n, handed_room, taken_room)
}

// What stands in a table at n places less h, into words that are 0.
fn pick(table: &[u32], is: &[u32], a: usize, n: usize, h: usize, to: &mut [u32])
    requires places { Places is.now a n h (length table.now) }
    requires to_value { to.old ≡ zeros (length to.old) }
    requires n_in_bounds { n ≤ length to.old }
    ensures { to.new ≡ filled (placed table.now h (part is.now a n)) (length to.old) }
{
    for j in 0..n {
        let p = word(is, a + j);
        let i = (p as usize) - h;
        to[j] = word(table, i);
    }
}

// Both halves of a subset that is not refused, into words that are 0.
fn pick_both(
    handed: &[u32],
    taken: &[u32],
    subset: &[u32],
    n: usize,
    handed_out: &mut [u32],
    taken_out: &mut [u32],
) -> Result<StageSize, Refusal>
    requires { Ready (stage_of handed.now taken.now) subset.now n handed_out.old taken_out.old }
    ensures { Subsetted (stage_of handed.now taken.now) subset.now handed_out.old taken_out.old handed_out.new taken_out.new result }
{
    let h = handed.len();
    let rest = subset.len() - n;
    pick(handed, subset, 0, n, 0, handed_out);
    pick(taken, subset, n, rest, h, taken_out);
    Ok(StageSize {
        handed: n as u32,
        taken: rest as u32,
    })
}

// A subset of a stage by a list of places: it keeps order and allows repeats.
pub fn to_endpoint_subset(
    handed: &[u32],
    taken: &[u32],
    subset: &[u32],
    handed_out: &mut [u32],
    taken_out: &mut [u32],
) -> Result<StageSize, Refusal>
    ensures { Subsetted (stage_of handed.now taken.now) subset.now handed_out.old taken_out.old handed_out.new taken_out.new result }
{
    zero(handed_out);
    zero(taken_out);
    let n = leading_places(subset, handed.len());
    test_subset(handed, taken, subset, n, handed_out.len(), taken_out.len())?;
    pick_both(handed, taken, subset, n, handed_out, taken_out)
}
