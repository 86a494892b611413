// Lines put in two rows, those that begin with a `-` first, each kind in its order, with no memory but the slice and an array for short parts.
#![tactic(auto)]

ghost use Rattle.std.specs.Prelude.{◌≡◌, ◌≤◌, length};
ghost use Rattle.text.specs.Feeds.{line_length};
ghost use Rattle.gathering.specs.Pieces.{Gathered, middle_of};

// A part of this many bytes is put in order by way of an array.
const SHORT: usize = 2048;

// In a short part a line that begins with a `-` moves down to the others of its kind, any other into the array, whose bytes come behind in the end.
// The first p bytes are those of the first kind, and the array has the others of the `at` bytes that were looked at.
// The slice is written while its lines are passed, so that no iterator can borrow it.
fn gather_short(s: &mut [u8]) -> usize
    requires { length s.old ≤ 2048 }
    ensures { Gathered s.old s.new result }
{
    let mut others = [0u8; SHORT];
    let mut p: usize = 0;
    let mut at: usize = 0;
    while at < s.len() {
        let e = text::feeds::line_after(s, at);
        let n = e - at;
        if s[at] == b'-' {
            text::copies::copy_down(s, p, at, n);
            p += n;
        } else {
            text::copies::copy_in(&mut others, at - p, s, at, n);
        }
        at = e;
    }
    text::copies::copy_in(s, p, &others, 0, at - p);
    p
}

// The start of a line near the middle, the first line's aside; 0 where there is one line or none.
fn middle(s: &[u8]) -> usize
    ensures { result ≡ middle_of s.now }
{
    let half = s.len() / 2;
    let m = text::feeds::line_after(s, half);
    if m < s.len() {
        return m;
    }
    text::feeds::line_start(s, half)
}

// One line or none.
fn gather_line(s: &[u8]) -> usize
    requires { line_length s.now ≡ length s.now }
    ensures { Gathered s.now s.now result }
{
    match s.first() {
        Some(b'-') => s.len(),
        _ => 0,
    }
}

// Puts the lines that begin with a `-` before the others, each kind in its order, and hands back how many bytes the first kind has.
pub fn gather(s: &mut [u8]) -> usize
    ensures { Gathered s.old s.new result }
{
    if s.len() <= SHORT {
        return gather_short(s);
    }
    let m = middle(s);
    if m == 0 {
        return gather_line(s);
    }
    let p = gather(&mut s[0..m]);
    let q = gather(&mut s[m..]);
    // The first part's others and the second part's first kind change places.
    rotation::rotate(&mut s[p..m + q], m - p);
    p + q
}
