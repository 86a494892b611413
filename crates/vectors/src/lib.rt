// Runs the cases of a file, one to a line, and writes each case with what it got. No contract says what is read or written; each function is
// proved safe and ending.
#![tactic(auto)]

mod journals; // journals.rt: a case of joining journals, and of turning one round
mod runs; // runs.rt: a case of the editor
mod sides; // sides.rt: a case of the readers of journals
mod writing; // writing.rt: the numbers and bytes of an answer

use cases::files::read_file;
use std::io;
use std::rt::Files;
use std::str::from_utf8;

// The most bytes of a table, a script and a journal that is given, of a buffer that is written, and the most numbers of a work area, in a case.
const BYTES: usize = 4096;

const BUFFER: usize = 20480;

const WORDS: usize = 512;

// Room for what a case lends and for hexadecimal digits. Two tables, scripts or journals are given; the buffer is for a journal or for what is read out of one.
#[derive(Drop)]
pub struct Room {
    pub first: [u8; BYTES],
    pub second: [u8; BYTES],
    pub work: [u32; WORDS],
    pub buffer: [u8; BUFFER],
    pub hex: [u8; 40960],
}

// What the cases of a file are for: an enum, as `run_file` takes it, so that the programs need not know of `Room`.
#[derive(Clone, Copy, Debug, PartialEq, Eq)]
pub enum For {
    Editor,
    Readers,
    Joining,
    Turning,
}

// Runs the cases of the file. One that cannot be opened has none, and standard error says why.
pub fn run_file<R: Files + Print + Eprint + AllocGlobal>(
    rt: &R,
    path: &[u8],
    cases: For,
) -> io::Result<()> {
    let Ok(name) = from_utf8(path) else {
        return eprintln!(rt; "a file's name is no text");
    };
    match cases {
        For::Editor => run_lines(rt, name, runs::run_case),
        For::Readers => run_lines(rt, name, sides::run_case),
        For::Joining => run_lines(rt, name, journals::join_case),
        For::Turning => run_lines(rt, name, journals::turn_case),
    }
}

// Runs `run` on each line of the file.
fn run_lines<R, F>(rt: &R, name: &str, run: F) -> io::Result<()>
where
    R: Files + Print + Eprint + AllocGlobal,
    F: Fn(&R, &[u8], &mut Room) -> io::Result<()>,
    requires { F.IsAlwaysCallable run }
{
    let mut file = [0u8; 393216];
    let n = read_file(rt, name, &mut file)?.unwrap_or(0);
    let mut room = Room {
        first: [0; BYTES],
        second: [0; BYTES],
        work: [0; WORDS],
        buffer: [0; BUFFER],
        hex: [0; 40960],
    };
    for line in file[..n].split_inclusive(|b| *b == b'\n') {
        run(rt, line, &mut room)?;
    }
    Ok(())
}
