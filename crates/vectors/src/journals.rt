// A case of joining is a line: two journals, the destination's length, then number, length and bytes. A case of turning round has one journal.
ghost use Rattle.std.specs.Prelude.{◌≡◌};
ghost use Rattle.definitions.specs.Listing.{number_of, length_of, bytes_of};
ghost use Rattle.vectors.specs.Cases.{made_to};

use crate::Room;
use crate::writing::{write_bytes, write_number};
use cases::buffers::fill;
use cases::fields::{bytes_at, number_at, through_field};
use std::io;

// What is made of journals.
#[derive(Clone, Copy)]
pub enum Work {
    Join,
    // Turning round takes the first journal alone.
    Turn,
}

// Runs the case of joining of the line.
pub fn join_case<R: Print>(rt: &R, line: &[u8], lent: &mut Room) -> io::Result<()> {
    let n = bytes_at(line, 0, &mut lent.first);
    let m = bytes_at(line, 1, &mut lent.second);
    let room = number_at(line, 2);
    rt.write_all(through_field(line, 2))?;
    run_one(
        rt,
        Work::Join,
        &lent.first[..n],
        &lent.second[..m],
        room,
        &mut lent.buffer,
        &mut lent.hex,
    )
}

// Runs the case of turning round of the line.
pub fn turn_case<R: Print>(rt: &R, line: &[u8], lent: &mut Room) -> io::Result<()> {
    let n = bytes_at(line, 0, &mut lent.first);
    let room = number_at(line, 1);
    rt.write_all(through_field(line, 1))?;
    run_one(
        rt,
        Work::Turn,
        &lent.first[..n],
        b"",
        room,
        &mut lent.buffer,
        &mut lent.hex,
    )
}

// Does the work with a destination of `room` bytes, each 7, writes what it got, and ends the line.
fn run_one<R: Print>(
    rt: &R,
    work: Work,
    j: &[u8],
    k: &[u8],
    room: usize,
    dest: &mut [u8],
    hex: &mut [u8],
) -> io::Result<()> {
    if dest.len() < room {
        return rt.write_all(b" no room\n");
    }
    fill(dest);
    let mut len: usize = 0;
    let number = make(work, j, k, &mut dest[..room], &mut len);
    write_number(rt, number as u64)?;
    write_number(rt, len as u64)?;
    write_bytes(rt, len, dest, 7, hex)?;
    rt.write_all(b"\n")
}

fn make(work: Work, j: &[u8], k: &[u8], dest: &mut [u8], len: &mut usize) -> u32
    ensures value { result ≡ number_of (made_to work j.now k.now dest.old) }
    ensures len_after { len.new ≡ length_of (made_to work j.now k.now dest.old) }
    ensures dest_after { dest.new ≡ bytes_of (made_to work j.now k.now dest.old) }
{
    match work {
        Work::Join => zed::zed_join(j, k, dest, len),
        Work::Turn => zed::zed_turn(j, dest, len),
    }
}
