// Files, read into buffers that are lent.
ghost use Rattle.std.specs.Prelude.{◌≤◌, ◌<◌, length, IfOk, IfSome};
ghost use Rattle.std.specs.Io.KnownBytes.{IsAtEnd};
ghost use Rattle.cases.specs.Reading.{ReadInto};

use std::io::{ErrorKind, Read};
use std::rt::Files;
use std::{fs, io};

// The bytes of a file, and how many they are: its first ones where it is longer than the buffer. Where it cannot be opened, standard error says why.
pub fn read_file<R: Files + Eprint + AllocGlobal>(
    rt: &R,
    path: &str,
    buf: &mut [u8],
) -> io::Result<Option<usize>>
    ensures { IfOk result (λ read. IfSome read (λ n. n ≤ length buf.old)) }
{
    match fs::open(rt, path) {
        Ok(mut file) => Ok(Some(read_full(&mut file, buf)?)),
        Err(error) => {
            report(rt, path, &error)?;
            Ok(None)
        }
    }
}

// Reads until the buffer is full or the input ends, and says how many bytes it read: those at the buffer's front. On an error some may have been read, and lie there too.
fn read_full<R: Read>(from: &mut R, buf: &mut [u8]) -> io::Result<usize>
    ensures bound { IfOk result (λ n. n ≤ length buf.old) }
    ensures bytes { ReadInto result (R.remaining from.old) (R.remaining from.new) buf.new }
    ensures end { IfOk result (λ n. n < length buf.old → IsAtEnd (R.remaining from.new)) }
{
    let mut done: usize = 0;
    for _ in 0..u64::MAX {
        if done == buf.len() {
            return Ok(done);
        }
        match from.read(&mut buf[done..]) {
            Ok(0) => return Ok(done),
            Ok(n) => done += n,
            Err(error) => {
                if error.kind() != ErrorKind::Interrupted {
                    return Err(error);
                }
            }
        }
    }
    // Interrupted each time: what was read is not all.
    Err(ErrorKind::Interrupted.into())
}

// Says on standard error what is wrong with a file, in the system's words.
fn report<R: Eprint + AllocGlobal>(rt: &R, path: &str, error: &io::Error) -> io::Result<()> {
    let text = format!(in rt.alloc(); "{error}")?;
    let words = words_of(text.as_str());
    eprintln!(rt; "{path}: {words}")
}

// The system's words, without the error's number that std writes behind them.
fn words_of(text: &str) -> &str {
    match text.split_once(" (os error ") {
        Some((words, _)) => words,
        None => text,
    }
}
