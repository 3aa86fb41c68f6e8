// Answers many texts, as the tool does. A line `---` parts one text from the next, and one answer from the next.
#![tactic(auto)]

ghost use Rattle.std.specs.Prelude.{◌≤◌, length, IfOk};

use prints::read_full;
use std::io;
use texts::until;
use tool::print_answer;

// Where the text that begins at a place ends: at a line `---`, or at the end.
fn text_end(all: &[u8], at: usize) -> usize
    requires { at ≤ length all.now }
    ensures { (at ≤ result) × (result ≤ length all.now) }
{
    let mut i = at;
    while i < all.len() {
        let e = until(all, i, b'\n');
        if &all[i..e] == b"---".as_slice() {
            return i;
        }
        if e == all.len() {
            return e;
        }
        i = e + 1;
    }
    i
}

// Answers the text that begins at a place. Answers where it ends.
fn print_text(rt: &impl Print, all: &[u8], at: usize) -> io::Result<usize>
    requires { at ≤ length all.now }
    ensures { IfOk result (λ e. (at ≤ e) × (e ≤ length all.now)) }
{
    let e = text_end(all, at);
    print_answer(rt, &all[at..e])?;
    Ok(e)
}

fn run(rt: &impl Print, all: &[u8]) -> io::Result<()> {
    let mut e = print_text(rt, all, 0)?;
    while e + 4 <= all.len() {
        rt.write_all(b"---\n")?;
        e = print_text(rt, all, e + 4)?;
    }
    Ok(())
}

fn main(rt: HostRuntime) -> io::Result<()> {
    let mut all = [0; 262144];
    let mut input = rt.reader();
    let n = read_full(&mut input, &mut all)?;
    run(&rt, &all[..n])
}
