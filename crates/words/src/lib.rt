#![tactic(auto)]

ghost use Rattle.std.specs.Prelude.{◌≡◌, ◌<◌, ◌≤◌, ◌+◌, length, get_or, replicate};
ghost use Rattle.laws.specs.Words.{part, zeros};
ghost use Rattle.words.specs.Tables.{written, same_words, all_zero};

// The word at i. Every read goes through it, so that a caller's proof sees one equation.
pub fn word(s: &[u32], i: usize) -> u32
    requires { i < length s.now }
    ensures { result ≡ get_or s.now i 0 }
{
    s[i]
}

// Every word 0.
pub fn zero(s: &mut [u32])
    ensures { s.new ≡ zeros (length s.old) }
{
    s.fill(0);
}

// The n words from at on are v; the rest is kept.
pub fn fill(s: &mut [u32], at: usize, n: usize, v: u32)
    requires { at + n ≤ length s.old }
    ensures { s.new ≡ written s.old at (replicate n v) }
{
    s[at..at + n].fill(v);
}

// The n words of to from at on are those of from that start at a; the rest is kept. Word by word, since the slice's own method
// would have the archive for C ask for memmove from outside.
pub fn copy(from: &[u32], a: usize, to: &mut [u32], at: usize, n: usize)
    requires n_in_bounds { a + n ≤ length «from».now }
    requires n_in_bounds_2 { at + n ≤ length to.old }
    ensures { to.new ≡ written to.old at (part «from».now a n) }
{
    for i in 0..n {
        to[at + i] = word(from, a + i);
    }
}

// Are two tables equal?
pub fn all_same(a: &[u32], b: &[u32]) -> bool
    ensures { result ≡ same_words a.now b.now }
{
    a == b
}

// Is every word 0?
pub fn all_zero(s: &[u32]) -> bool
    ensures { result ≡ all_zero s.now }
{
    s.iter().all(|&w| w == 0)
}
