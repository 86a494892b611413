// The test program of document 01, "Listing and loader": runs the script EDITS against the table OLD of the working folder, with the largest
// budget and a journal buffer of 65,536 bytes, and prints the listing, then the end line.
#![tactic(auto)]

ghost use Rattle.std.specs.Prelude.{◌≡◌, ◌&&◌, ◌||◌, ◌<◌, length, eqb, ltb, IfOk, IfSome};

use cases::files;
use std::io;
use std::rt::Files;

// A byte more than the longest table and the longest script: a file that fills it is too long.
const TABLE_READ: usize = 16385;

const SCRIPT_READ: usize = 8129;

// The work area for the longest script: 2 * 8,128 + 64.
const WORK: usize = 16320;

const MOST: usize = 65536;

fn main(rt: HostRuntime) -> io::Result<()> {
    let mut table = [0u8; TABLE_READ];
    let n = read_file(&rt, "OLD", &mut table)?;
    let mut script = [0u8; SCRIPT_READ];
    let m = read_file(&rt, "EDITS", &mut script)?;
    match (n, m) {
        (Some(n), Some(m)) => run(&rt, &table[..n], &script[..m]),
        _ => Ok(()),
    }
}

// How many bytes of a file were read. None, and a message, where it cannot be opened or does not leave a byte free.
fn read_file<R: Files + Eprint + AllocGlobal>(
    rt: &R,
    path: &str,
    buf: &mut [u8],
) -> io::Result<Option<usize>>
    ensures { IfOk result (λ read. IfSome read (λ n. n < length buf.old)) }
{
    let Some(n) = files::read_file(rt, path, buf)? else {
        return Ok(None);
    };
    if buf.len() <= n {
        eprintln!(rt; "{path}: the file is too long")?;
        return Ok(None);
    }
    Ok(Some(n))
}

// Runs the script, and prints the listing and the end line: number, steps, furthest line read and place.
fn run<R: Print>(rt: &R, table: &[u8], script: &[u8]) -> io::Result<()> {
    let mut work = [0u32; WORK];
    let mut journal = [0u8; MOST];
    let mut answer = [0u64; 5];
    let number = zed::zed_run(
        table,
        script,
        u32::MAX,
        &mut work,
        &mut journal,
        &mut answer,
    );
    let [end, steps, furthest, length, place] = answer;
    if !refused(number) {
        if let Some(journal) = journal.get(..length as usize) {
            print_listing(rt, journal)?;
        }
    }
    println!(rt; "end {end} steps {steps} read {furthest} at {place}")
}

// 1 to 9, and 33 and 34 by document 02, wishes 8 and 9: no journal was written.
fn refused(number: u64) -> bool
    ensures { result ≡ (eqb number 33 || eqb number 34 || (ltb 0 number && ltb number 10)) }
{
    matches!(number, 1..=9 | 33 | 34)
}

// Prints the listing; nothing where it is longer than 65,536 bytes.
fn print_listing<R: Print>(rt: &R, journal: &[u8]) -> io::Result<()> {
    let mut listing = [0u8; MOST];
    let mut n: usize = 0;
    zed::zed_listing(journal, &mut listing, &mut n);
    match listing.get(..n) {
        Some(written) => rt.write_all(written),
        None => Ok(()),
    }
}
