// What the programs read and print: the bytes of their input, and lines of words, a label and the words behind it.
#![tactic(auto)]

ghost use Rattle.std.specs.Prelude.{◌<◌, IfOk, length, take};
ghost use Rattle.std.specs.Io.{ReadsAtMost};
ghost use Rattle.std.specs.Io.KnownBytes.{Consumes, IsAtEnd};

use std::io::{self, Read, Write};

// Reads until buf is full or the input ends, and returns how many bytes it put at the start of buf. A read that fails ends it,
// also one that a signal interrupts.
pub fn read_full<R: Read>(reader: &mut R, buf: &mut [u8]) -> io::Result<usize>
    ensures bound { ReadsAtMost result buf.new }
    ensures bytes { IfOk result (λ n. Consumes (R.remaining reader.old) (R.remaining reader.new) (take n buf.new)) }
    ensures end { IfOk result (λ n. n < length buf.new → IsAtEnd (R.remaining reader.new)) }
{
    let mut done = 0;
    while done < buf.len() {
        let n = reader.read(&mut buf[done..])?;
        if n == 0 {
            break;
        }
        done += n;
    }
    Ok(done)
}

fn print_word(out: &mut impl Write, w: u32) -> io::Result<()> {
    write!(out, " {w}")
}

fn print_each(out: &mut impl Write, ws: &[u32]) -> io::Result<()> {
    for &w in ws {
        print_word(out, w)?;
    }
    Ok(())
}

// A line: a label, and words behind it.
pub fn print_words(rt: &impl Print, label: &[u8], ws: &[u32]) -> io::Result<()> {
    let mut out = io::writer(rt);
    out.write_all(label)?;
    print_each(&mut out, ws)?;
    out.write_all(b"\n")
}
