// A case of the readers of journals is a line: the journal, the destination's length, then number, length and bytes three times.
ghost use Rattle.std.specs.Prelude.{◌≡◌};
ghost use Rattle.definitions.specs.Listing.{number_of, length_of, bytes_of};
ghost use Rattle.vectors.specs.Cases.{read_to};

use crate::Room;
use crate::writing::{write_bytes, write_number};
use cases::buffers::fill;
use cases::fields::{bytes_at, number_at, through_field};
use std::io;

#[derive(Clone, Copy)]
pub enum Side {
    Old,
    New,
    Listing,
}

// Runs the case of the line: each reader on its journal.
pub fn run_case<R: Print>(rt: &R, line: &[u8], lent: &mut Room) -> io::Result<()> {
    let size = bytes_at(line, 0, &mut lent.first);
    let room = number_at(line, 1);
    rt.write_all(through_field(line, 1))?;
    for side in [Side::Old, Side::New, Side::Listing] {
        run_reader(
            rt,
            side,
            &lent.first[..size],
            room,
            &mut lent.buffer,
            &mut lent.hex,
        )?;
    }
    rt.write_all(b"\n")
}

// Runs one reader with a destination of `room` bytes, each 7, and writes what it got.
fn run_reader<R: Print>(
    rt: &R,
    side: Side,
    j: &[u8],
    room: usize,
    dest: &mut [u8],
    hex: &mut [u8],
) -> io::Result<()> {
    if dest.len() < room {
        return rt.write_all(b" no room");
    }
    fill(dest);
    let mut len: usize = 0;
    let number = read(side, j, &mut dest[..room], &mut len);
    write_number(rt, number as u64)?;
    write_number(rt, len as u64)?;
    write_bytes(rt, len, dest, 7, hex)
}

fn read(side: Side, j: &[u8], dest: &mut [u8], len: &mut usize) -> u32
    ensures value { result ≡ number_of (read_to side j.now dest.old) }
    ensures len_after { len.new ≡ length_of (read_to side j.now dest.old) }
    ensures dest_after { dest.new ≡ bytes_of (read_to side j.now dest.old) }
{
    match side {
        Side::Old => zed::zed_old_side(j, dest, len),
        Side::New => zed::zed_new_side(j, dest, len),
        Side::Listing => zed::zed_listing(j, dest, len),
    }
}
