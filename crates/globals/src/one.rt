// One global over one line: every occurrence of its string, from the left, in the line as it was.
ghost use Rattle.std.specs.Prelude.{◌≡◌, ◌≤◌, ◌<◌, length, take};
ghost use Rattle.globals.specs.Passing.{LeftAs, next_place, Occurs, through_one, MakesGlobal, PassesOne};

use super::TooLong;
use items::arguments::{string_length, string_start};
use items::heads::kind_of;
use items::kinds::{GLOBAL_AFTER, GLOBAL_BEFORE};
use matching::search::{length_at, start_at};
use text::copies::copy_in;

// The place of the string in the line from `at` on; the line's end where it does not occur. Globals have no W: no byte counts.
fn next_place(line: &[u8], at: usize, s: &[u8]) -> usize
    requires { (at ≤ length line.now) × (length line.now ≤ 255) × (length s.now ≤ 255) }
    ensures { result ≡ next_place s.now line.now at }
{
    let found = matching::find(&[0, 0, 0], line, at, matching::no_qualifiers(), s);
    match found {
        Some(found) => found.at,
        None => line.len(),
    }
}

// The line with a, then b, for each s, at the start of `out`. What is put in is not looked at again. The text only grows on the way, so that more than
// 255 bytes at one place are more than 255 at the end.
fn put_for_each(
    out: &mut [u8],
    line: &[u8],
    first: usize,
    s: &[u8],
    a: &[u8],
    b: &[u8],
) -> Result<usize, TooLong>
    requires { (256 ≤ length out.old) × Occurs line.now first s.now a.now b.now }
    ensures { LeftAs result out.new (through_one s.now a.now b.now line.now) }
{
    let mut len: usize = 0;
    let mut at: usize = 0;
    let mut i = first;
    while i < line.len() {
        let n = len + (i - at);
        let m = n + a.len();
        let end = m + b.len();
        if 255 < end {
            return Err(TooLong);
        }
        copy_in(out, len, line, at, i - at);
        copy_in(out, n, a, 0, a.len());
        copy_in(out, m, b, 0, b.len());
        len = end;
        at = i + s.len();
        i = next_place(line, at, s);
    }
    let rest = line.len() - at;
    if 255 < len + rest {
        return Err(TooLong);
    }
    copy_in(out, len, line, at, rest);
    Ok(len + rest)
}

// The same in the first n bytes of the line itself.
fn rewrite(
    line: &mut [u8],
    n: usize,
    first: usize,
    s: &[u8],
    a: &[u8],
    b: &[u8],
) -> Result<usize, TooLong>
    requires { (256 ≤ length line.old) × (n ≤ 255) × Occurs (take n line.old) first s.now a.now b.now }
    ensures { LeftAs result line.new (through_one s.now a.now b.now (take n line.old)) }
{
    let mut out = [0u8; 256];
    let m = put_for_each(&mut out, &line[0..n], first, s, a, b)?;
    copy_in(line, 0, &out, 0, m);
    Ok(m)
}

// The text in the first n bytes of the line, passed through the global of the item at k. Most lines have no occurrence and stay as they are.
pub fn apply(
    script: &[u8],
    w: &[u32],
    k: usize,
    line: &mut [u8],
    n: usize,
) -> Result<usize, TooLong>
    requires { MakesGlobal script.now w.now k × (n ≤ 255) × (256 ≤ length line.old) }
    ensures { PassesOne script.now w.now k (take n line.old) result line.new }
{
    let from = start_at(w, k + 1);
    let to = from + length_at(w, k + 1);
    let first = next_place(&line[0..n], 0, &script[from..to]);
    if first == n {
        return Ok(n);
    }
    let word = w[k + 3];
    let start = string_start(word);
    let end = start + string_length(word);
    let kind = kind_of(w, k);
    if kind == GLOBAL_AFTER {
        return rewrite(
            line,
            n,
            first,
            &script[from..to],
            &script[from..to],
            &script[start..end],
        );
    }
    if kind == GLOBAL_BEFORE {
        return rewrite(
            line,
            n,
            first,
            &script[from..to],
            &script[start..end],
            &script[from..to],
        );
    }
    rewrite(
        line,
        n,
        first,
        &script[from..to],
        &script[start..end],
        &script[end..end],
    )
}
