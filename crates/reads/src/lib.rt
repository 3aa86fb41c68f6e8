// The literals that an endpoint reads, by number: an output its own, a flip-flop enable and next, a RAM its 91.
#![tactic(auto)]

ghost use Rattle.std.specs.Prelude.{◌≡◌, ◌+◌, ◌*◌, ◌/◌, ◌<◌, length, get_or};
ghost use Rattle.rules.specs.Stages.{dff_reads};
ghost use Rattle.rules.specs.Tables.{record_in};
ghost use Rattle.rules.specs.Answers.{endpoints};
ghost use Rattle.reads.specs.Reads.{Lent, reads_long, reads_in, turn_word, ram_read};

use rules::GraphCounts;
use words::word;

// How many literals an endpoint reads.
pub fn reads_count(c: GraphCounts, e: usize) -> usize
    ensures { result ≡ reads_long c e }
{
    let outputs = c.outputs as usize;
    if e < outputs {
        return 1;
    }
    if e < outputs + (c.dffs as usize) {
        return 2;
    }
    91
}

fn dff_word(dffs: &[u32], k: usize, i: usize) -> u32
    requires k_in_bounds { 3 * k + 2 < length dffs.now }
    requires i_bound { i < 2 }
    ensures { result ≡ get_or (dff_reads (record_in dffs.now k)) i 0 }
{
    let at = 3 * k;
    if i == 0 {
        return word(dffs, at + 1);
    }
    word(dffs, at)
}

// The words from x and from y on, one of each in turn.
fn turn_word(rams: &[u32], x: usize, y: usize, j: usize) -> u32
    requires j_in_bounds { x + j < length rams.now }
    requires j_in_bounds_2 { y + j / 2 < length rams.now }
    ensures { result ≡ turn_word rams.now x y j }
{
    let half = j / 2;
    if j % 2 == 0 {
        return word(rams, x + half);
    }
    word(rams, y + half)
}

fn ram_word(rams: &[u32], k: usize, i: usize) -> u32
    requires k_in_bounds { 123 * k + 123 < length rams.now + 1 }
    requires i_bound { i < 91 }
    ensures { result ≡ ram_read rams.now k i }
{
    let at = 123 * k;
    if i == 0 {
        return word(rams, at);
    }
    if i < 27 {
        return turn_word(rams, at + 1, at + 46, i - 1);
    }
    turn_word(rams, at + 59, at + 91, i - 27)
}

fn read_word(c: GraphCounts, outputs: &[u32], dffs: &[u32], rams: &[u32], e: usize, i: usize) -> u32
    requires lent { Lent c outputs.now dffs.now rams.now }
    requires e_bound { e < endpoints c }
    requires i_bound { i < reads_long c e }
    ensures { result ≡ get_or (reads_in c outputs.now dffs.now rams.now e) i 0 }
{
    let first = c.outputs as usize;
    if e < first {
        return word(outputs, e);
    }
    let k = e - first;
    let second = c.dffs as usize;
    if k < second {
        return dff_word(dffs, k, i);
    }
    ram_word(rams, k - second, i)
}

// The pin of the literal number i that an endpoint reads.
pub fn read_pin(
    c: GraphCounts,
    outputs: &[u32],
    dffs: &[u32],
    rams: &[u32],
    e: usize,
    i: usize,
) -> u32
    requires lent { Lent c outputs.now dffs.now rams.now }
    requires e_bound { e < endpoints c }
    requires i_bound { i < reads_long c e }
    ensures { result ≡ get_or (reads_in c outputs.now dffs.now rams.now e) i 0 / 2 }
{
    let l = read_word(c, outputs, dffs, rams, e, i);
    l / 2
}
