// The tool: prints the graph and the stages of a netlist. The text is that of the file which the first argument names, or of
// standard input.
#![tactic(auto)]

use prints::read_full;
use std::env::FillError;
use std::fs::File;
use std::io::{self, Read};
use std::rt::{Env, Files};
use tool::print_answer;

fn run(rt: &impl Print, input: &mut impl Read) -> io::Result<()> {
    // A byte more than the longest text, so that a longer one is refused.
    let mut text = [0; 262145];
    let n = read_full(input, &mut text)?;
    print_answer(rt, &text[..n])
}

// A line on standard error: what failed, and why.
fn fail(rt: &impl Eprint, what: &str, why: io::Error) -> io::Result<()> {
    eprintln!(rt; "{what}: {why}")
}

fn run_named(rt: &(impl Files + Print + Eprint), path: &str) -> io::Result<()> {
    match File::open(rt, path) {
        Ok(mut file) => run(rt, &mut file),
        Err(why) => fail(rt, path, why),
    }
}

// std names a file by text alone.
fn run_file(rt: &(impl Files + Print + Eprint), path: &[u8]) -> io::Result<()> {
    match str::from_utf8(path) {
        Ok(name) => run_named(rt, name),
        Err(_) => fail(rt, "path", io::Error::other("File name is not UTF-8")),
    }
}

fn main(rt: HostRuntime) -> io::Result<()> {
    // The longest path that the system takes has one byte less.
    let mut path = [0; 4096];
    match rt.arg(1, &mut path) {
        Ok(length) => run_file(&rt, &path[..length]),
        Err(FillError::TooLong) => fail(&rt, "path", io::Error::other("File name too long")),
        Err(FillError::NotPresent) => {
            let mut input = rt.reader();
            run(&rt, &mut input)
        }
    }
}
