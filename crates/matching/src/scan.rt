// The places of the text, one after the other, from the left and from the right.
ghost use Rattle.std.specs.Prelude.{◌≡◌, true, false, ◌+◌, ◌-◌, ◌≤◌, length, drop};
ghost use Rattle.definitions.specs.Matching.{text, stands_at, counted, with_width};
ghost use Rattle.wordset.specs.Sets.{in_set};
ghost use Rattle.taking.specs.Ways.{found_of};
ghost use Rattle.matching.specs.Scan.{other_places};

use super::place::stands;
use scans::{Kind, past_long};
use taking::Found;
use text::upper;

// The next place up to `top` where the string's first byte stands; `top` where none is before it.
fn next_place(line: &[u8], s: &[u8], at: usize, top: usize, fold: bool) -> usize
    requires { (at ≤ top) × (top ≤ length line.now) }
    ensures { result ≡ at + other_places fold s.now (top - at) (drop at line.now) }
{
    if s.len() == 0 {
        return at;
    }
    if fold {
        return past_long(line, at, top, Kind::NotFolded(upper(s[0])));
    }
    past_long(line, at, top, Kind::Not(s[0]))
}

// The counted occurrence in the text from start to end, from the left. A place is first looked at by the string's first byte alone.
pub fn from_left(
    set: &[u32],
    line: &[u8],
    s: &[u8],
    start: usize,
    end: usize,
    count: usize,
    word: bool,
    fold: bool,
) -> Option<Found>
    requires { (3 ≤ length set.now) × (start + length s.now ≤ end) × (end ≤ length line.now) }
    ensures { found_of result ≡ with_width (length s.now) (counted (stands_at (in_set set.now 0) word fold s.now line.now) (length s.now) count false (text start end)) }
{
    let top = end - s.len();
    // how many places an occurrence takes up
    let step = usize::max(1, s.len());
    let mut k = count;
    let mut i = start;
    loop {
        i = next_place(line, s, i, top, fold);
        if stands(set, line, s, i, word, fold) {
            if k <= 1 {
                return Some(Found {
                    at: i,
                    width: s.len(),
                });
            }
            if top - i < step {
                return None;
            }
            k -= 1;
            i += step;
        } else {
            if i == top {
                return None;
            }
            i += 1;
        }
    }
}

// The counted occurrence in the text from start to end, from the right.
pub fn from_right(
    set: &[u32],
    line: &[u8],
    s: &[u8],
    start: usize,
    end: usize,
    count: usize,
    word: bool,
    fold: bool,
) -> Option<Found>
    requires { (3 ≤ length set.now) × (start + length s.now ≤ end) × (end ≤ length line.now) }
    ensures { found_of result ≡ with_width (length s.now) (counted (stands_at (in_set set.now 0) word fold s.now line.now) (length s.now) count true (text start end)) }
{
    // how many places an occurrence takes up
    let step = usize::max(1, s.len());
    let mut k = count;
    let mut i = end - s.len();
    loop {
        if stands(set, line, s, i, word, fold) {
            if k <= 1 {
                return Some(Found {
                    at: i,
                    width: s.len(),
                });
            }
            if i - start < step {
                return None;
            }
            k -= 1;
            i -= step;
        } else {
            if i == start {
                return None;
            }
            i -= 1;
        }
    }
}
