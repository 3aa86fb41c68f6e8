// An endpoint's input number i: the pins that it reads, pin 0 not counted.
#![tactic(auto)]

ghost use Rattle.std.specs.Prelude.{◌≡◌, ◌&&◌, ◌*◌, ◌<◌, ◌≤◌, length, get_or, [], ◌∷◌};
ghost use Rattle.laws.specs.Tests.{◌≤?◌};
ghost use Rattle.rules.specs.Bounds.{graph_within};
ghost use Rattle.rules.specs.Stages.{inputs, inputs_of};
ghost use Rattle.rules.specs.Tables.{ends_in, graph_in};
ghost use Rattle.rules.specs.Answers.{answer_of, ends_long, endpoints, input_number, end_inputs, place_inputs, stage_input_number};
ghost use Rattle.inputs.specs.Counting.{wanted, passed, LentIn, ins_in, stage_of};

use reads::{read_pin, reads_count};
use rules::{EndTables, GraphCounts, Refusal};
use subsets::{counts_fit, num_endpoint_groups};
use words::word;

// Whether a pin is the input that is looked for.
fn is_wanted(p: u32, seen: usize, i: usize) -> bool
    ensures { result ≡ wanted p seen i }
{
    p != 0 && seen == i
}

// One more input, where the pin is one.
fn count_one(p: u32) -> usize
    ensures { (result ≡ passed p) × (result ≤ 1) }
{
    if p == 0 { 0 } else { 1 }
}

// The input number i of an endpoint, or 0 where there is none.
fn find_input(ends: EndTables, e: usize, i: usize) -> u32
    requires lent { LentIn ends }
    requires e_bound { e < endpoints ends.counts }
    ensures { result ≡ get_or (ins_in ends.entry e) i 0 }
{
    let n = reads_count(ends.counts, e);
    let mut seen = 0;
    for j in 0..n {
        let p = read_pin(ends.counts, ends.outputs, ends.dffs, ends.rams, e, j);
        if is_wanted(p, seen, i) {
            return p;
        }
        seen += count_one(p);
    }
    0
}

// 2: the tables of endpoints have the lengths of their counts.
fn ends_long(ends: EndTables) -> bool
    ensures { result ≡ ends_long ends.entry.counts (ends_in ends.entry) }
{
    let c = ends.counts;
    ends.outputs.len() == c.outputs as usize
        && ends.dffs.len() == 3 * (c.dffs as usize)
        && ends.rams.len() == 123 * (c.rams as usize)
}

// An endpoint's input number i.
pub fn endpoint_input(ends: EndTables, e: u32, i: u32) -> Result<u32, Refusal>
    ensures { result ≡ answer_of (input_number ends.entry.counts (ends_in ends.entry) e i) (get_or (inputs (graph_in ends.entry.counts (ends_in ends.entry)) e) i 0) }
{
    if !counts_fit(ends.counts) {
        return Err(Refusal::Bounds);
    }
    if !ends_long(ends) {
        return Err(Refusal::Lengths);
    }
    if num_endpoint_groups(ends.counts) <= (e as usize) {
        return Err(Refusal::Index);
    }
    let p = find_input(ends, e as usize, i as usize);
    if p == 0 {
        return Err(Refusal::Index);
    }
    Ok(p)
}

// The input number i of a handed-on pin, or 0: it reads itself, unless it is pin 0.
fn pin_input(p: u32, i: usize) -> u32
    ensures { result ≡ get_or (inputs_of (2 * p ∷ [])) i 0 }
{
    if i == 0 { p } else { 0 }
}

// The input number i of an endpoint, or 0 where there is no such endpoint or input.
fn end_input(ends: EndTables, e: usize, i: usize) -> u32
    requires { LentIn ends }
    ensures { result ≡ get_or (end_inputs ends.entry.counts (ends_in ends.entry) e) i 0 }
{
    if num_endpoint_groups(ends.counts) <= e {
        return 0;
    }
    find_input(ends, e, i)
}

// The input number i of what stands at a place of a stage, or 0.
fn place_input(ends: EndTables, handed: &[u32], taken: &[u32], k: usize, i: usize) -> u32
    requires { LentIn ends }
    ensures { result ≡ get_or (place_inputs ends.entry.counts (ends_in ends.entry) (stage_of handed.now taken.now) k) i 0 }
{
    if k < handed.len() {
        return pin_input(handed[k], i);
    }
    let past = k - handed.len();
    if taken.len() <= past {
        return 0;
    }
    end_input(ends, word(taken, past) as usize, i)
}

// 1 of a stage's lists and a graph's counts.
fn stage_within(c: GraphCounts, handed: usize, taken: usize) -> bool
    ensures { result ≡ (graph_within c && (handed ≤? 16777215) && (taken ≤? 16777215)) }
{
    counts_fit(c) && handed <= 16777215 && taken <= 16777215
}

// The input number i of an endpoint of a stage by its place: its handed-on pins, then the endpoints that it takes.
pub fn staged_input(
    ends: EndTables,
    handed: &[u32],
    taken: &[u32],
    k: usize,
    i: usize,
) -> Result<u32, Refusal>
    ensures { result ≡ answer_of (stage_input_number ends.entry.counts (ends_in ends.entry) (stage_of handed.now taken.now) k i) (get_or (place_inputs ends.entry.counts (ends_in ends.entry) (stage_of handed.now taken.now) k) i 0) }
{
    if !stage_within(ends.counts, handed.len(), taken.len()) {
        return Err(Refusal::Bounds);
    }
    if !ends_long(ends) {
        return Err(Refusal::Lengths);
    }
    let p = place_input(ends, handed, taken, k, i);
    if p == 0 {
        return Err(Refusal::Index);
    }
    Ok(p)
}
