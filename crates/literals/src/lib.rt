// The literals of netlist pins, kept in the work words from 7 * m on, and what the output of a cell makes of them.
#![tactic(auto)]

ghost use Rattle.std.specs.Prelude.{◌≡◌, ℕ, ◌+◌, ◌*◌, ◌<◌, ◌≤◌, length, get_or, set};
ghost use Rattle.laws.specs.Lists.{first_or};
ghost use Rattle.rules.specs.declared.Driver.TheVariants.{Port};
ghost use Rattle.rules.specs.Netlist.{named};
ghost use Rattle.rules.specs.Graph.{opposite_if, and_of};
ghost use Rattle.rules.specs.Tables.{netlist_in};
ghost use Rattle.roles.specs.Reading.{Fits};
ghost use Rattle.drafts.specs.Table.{drivers_of, pushed, set_reset, Open};
ghost use Rattle.literals.specs.Settled.{word_at, turned_made, Leaves};

use drafts::Draft;
use roles::cell_entry;
use rules::{Driver, Literal, NetlistTables};

pub fn literal_at(work: &[u32], m: usize, p: u32) -> Literal
    requires { 7 * m + p < length work.now }
    ensures { result.word ≡ get_or work.now (7 * m + p) 0 }
{
    let place = 7 * m + p as usize;
    Literal { word: work[place] }
}

pub fn put_literal(work: &mut [u32], m: usize, p: u32, lit: Literal)
    requires { 7 * m + p < length work.old }
    ensures { work.new ≡ set work.old (7 * m + p) lit.word }
{
    let place = 7 * m + p as usize;
    work[place] = lit.word;
}

// The opposite of a literal where x says so.
fn turned(x: bool, lit: Literal) -> Literal
    ensures { result.word ≡ opposite_if x lit.word }
{
    if x { lit.opposite() } else { lit }
}

// The output of an input port: a pin of its own.
pub fn port_out(draft: &mut Draft, m: usize, p: u32) -> Option<()>
    requires open { Open draft.old }
    requires p_bound { 7 * m + p < draft.old.at }
    ensures { Leaves m p (pushed (drivers_of draft.old) (Port p)) draft.old draft.new result }
{
    let lit = draft.push(Driver::Port(p))?;
    put_literal(draft.work, m, p, lit);
    Some(())
}

// The literal of a pin, or its opposite where x says so.
pub fn operand(work: &[u32], m: usize, p: u32, x: bool) -> Literal
    requires { 7 * m + p < length work.now }
    ensures { result.word ≡ opposite_if x (word_at work.now m p) }
{
    let lit = literal_at(work, m, p);
    turned(x, lit)
}

// The AND of two literals, or its opposite, becomes the literal of a pin.
fn and_left(draft: &mut Draft, m: usize, p: u32, a: Literal, b: Literal, z: bool) -> Option<()>
    requires open { Open draft.old }
    requires p_bound { 7 * m + p < draft.old.at }
    ensures { Leaves m p (turned_made z (and_of (drivers_of draft.old) a.word b.word)) draft.old draft.new result }
{
    let lit = draft.and_of(a, b)?;
    let out = turned(z, lit);
    put_literal(draft.work, m, p, out);
    Some(())
}

// The output of an AND2: ((A xor x) and (B xor y)) xor z.
pub fn and_out(
    draft: &mut Draft,
    m: usize,
    p: u32,
    x: bool,
    y: bool,
    z: bool,
    a: u32,
    b: u32,
) -> Option<()>
    requires open { Open draft.old }
    requires p_bound { 7 * m + p < draft.old.at }
    requires a_bound { 7 * m + a < draft.old.at }
    requires b_bound { 7 * m + b < draft.old.at }
    ensures { Leaves m p (turned_made z (and_of (drivers_of draft.old) (opposite_if x (word_at draft.old.work.now m a)) (opposite_if y (word_at draft.old.work.now m b)))) draft.old draft.new result }
{
    let work = draft.words();
    let one = operand(work, m, a, x);
    let two = operand(work, m, b, y);
    and_left(draft, m, p, one, two, z)
}

// The literal of a cell's pin of this name; where it has none, the literal that stands for it.
pub fn named_literal(n: NetlistTables, draft: &Draft, cell: u32, name: u32, absent: u32) -> Literal
    requires fits { Fits (netlist_in n) }
    requires cell_in_bounds { cell < length n.kinds.now }
    requires list_in_bounds { 8 * length n.list.now ≤ length draft.now.work.now }
    ensures { result.word ≡ first_or absent (word_at draft.now.work.now (length n.entry.list.now)) (named (netlist_in n.entry) cell name) }
{
    match cell_entry(n.starts, n.list, n.pins, cell, name, name, 0) {
        Some(q) => literal_at(draft.work, n.list.len(), q),
        None => Literal { word: absent },
    }
}

// A stored bit, as set and reset let it through, becomes the literal of a pin.
fn flop_left(draft: &mut Draft, m: usize, p: u32, v: Literal, s: Literal, r: Literal) -> Option<()>
    requires open { Open draft.old }
    requires p_bound { 7 * m + p < draft.old.at }
    ensures { Leaves m p (set_reset (drivers_of draft.old) v.word s.word r.word) draft.old draft.new result }
{
    let lit = draft.set_reset(v, s, r)?;
    put_literal(draft.work, m, p, lit);
    Some(())
}

// The output of a flip-flop whose own pin is `own`: its stored bit, as its set and reset let it through.
pub fn flop_out(n: NetlistTables, draft: &mut Draft, p: u32, cell: u32, own: u32) -> Option<()>
    requires fits { Fits (netlist_in n) }
    requires cell_in_bounds { cell < length n.kinds.now }
    requires own_bound { own ≤ 16777215 }
    requires list_bound { 8 * length n.list.now ≤ draft.old.at }
    requires p_in_bounds { p < length n.list.now }
    requires open { Open draft.old }
    ensures { Leaves (length n.entry.list.now) p (set_reset (drivers_of draft.old) (2 * own) (first_or 1 (word_at draft.old.work.now (length n.entry.list.now)) (named (netlist_in n.entry) cell 6)) (first_or 1 (word_at draft.old.work.now (length n.entry.list.now)) (named (netlist_in n.entry) cell 7))) draft.old draft.new result }
{
    let set = named_literal(n, draft, cell, 6, 1);
    let reset = named_literal(n, draft, cell, 7, 1);
    let stored = Literal { word: 2 * own };
    flop_left(draft, n.list.len(), p, stored, set, reset)
}
