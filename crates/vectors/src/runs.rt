// A case of the editor is a line: table, script, budget, the lengths of work area and journal buffer, then number, steps, furthest, length, place
// and journal.
ghost use Rattle.std.specs.Prelude.{◌≡◌};
ghost use Rattle.vectors.specs.Cases.{rest_after};

use crate::Room;
use crate::writing::{write_bytes, write_number};
use cases::buffers::fill;
use cases::fields::{bytes_at, number_at, through_field};
use std::io;

// Runs the case of the line.
pub fn run_case<R: Print>(rt: &R, line: &[u8], lent: &mut Room) -> io::Result<()> {
    let n = bytes_at(line, 0, &mut lent.first);
    let m = bytes_at(line, 1, &mut lent.second);
    rt.write_all(through_field(line, 4))?;
    let words = number_at(line, 3);
    let room = number_at(line, 4);
    if lent.work.len() < words || lent.buffer.len() < room {
        return rt.write_all(b" no room\n");
    }
    let budget = number_at(line, 2);
    let work = &mut lent.work[..];
    let buffer = &mut lent.buffer[..];
    run_one(
        rt,
        &lent.first[..n],
        &lent.second[..m],
        budget as u32,
        &mut work[..words],
        &mut buffer[..room],
        &mut lent.hex,
    )
}

// Runs the editor, with a journal buffer of bytes that are 7, and writes what it answers.
fn run_one<R: Print>(
    rt: &R,
    table: &[u8],
    script: &[u8],
    budget: u32,
    work: &mut [u32],
    journal: &mut [u8],
    hex: &mut [u8],
) -> io::Result<()> {
    fill(journal);
    let mut answer = [0u64; 5];
    let number = zed::zed_run(table, script, budget, work, journal, &mut answer);
    for n in answer {
        write_number(rt, n)?;
    }
    write_bytes(rt, answer[3] as usize, journal, rest_after(number), hex)?;
    rt.write_all(b"\n")
}

// What the bytes past the journal are: 0 after a run, 7 as before where it was refused.
fn rest_after(number: u64) -> u8
    ensures { result ≡ rest_after number }
{
    match number {
        1..=9 | 33 | 34 => 7,
        _ => 0,
    }
}
