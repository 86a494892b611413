// Lines by their first bytes: the next line that begins with a byte, and how far lines go that begin with bytes of one kind.
#![tactic(auto)]

ghost use Rattle.std.specs.Prelude.{◌≡◌, true, false, ◌+◌, ◌≤◌, length, drop, eqb, leb};
ghost use Rattle.rows.specs.Rows.{line_where};

// Whether a line that begins with c begins after one of the 16 bytes from `at` on. Each pair of bytes is loaded and compared whatever stands there, and
// no way leads out of the loop, so that all 16 are looked at at once.
fn begins_in(s: &[u8], at: usize, c: u8) -> bool
    requires { at + 17 ≤ length s.now }
    ensures { result ≡ leb (line_where (λ b. eqb b c) false (drop at s.now)) 16 }
{
    let mut found = false;
    for k in 0..16 {
        found |= (s[at + k] == b'\n') & (s[at + k + 1] == c);
    }
    found
}

// The start of the next line that begins with c, or the end: byte by byte. No line that is looked for begins at `at`.
fn by_bytes(s: &[u8], at: usize, c: u8) -> usize
    requires { at ≤ length s.now }
    ensures { result ≡ at + line_where (λ b. eqb b c) false (drop at s.now) }
{
    for i in at + 1..s.len() {
        if (s[i - 1] == b'\n') & (s[i] == c) {
            return i;
        }
    }
    s.len()
}

// The start of the next line from `at` on that begins with c, or the end. A line begins at `at`. Sixteen bytes at a time as long as it begins after none of them,
// of 17 that are looked at, so that no iterator over chunks fits.
pub fn line_with(s: &[u8], at: usize, c: u8) -> usize
    requires { at ≤ length s.now }
    ensures { (result ≡ at + line_where (λ b. eqb b c) true (drop at s.now)) × (result ≤ length s.now) }
{
    if s.len() <= at {
        return at;
    }
    if s[at] == c {
        return at;
    }
    let mut i = at;
    while i + 16 < s.len() {
        if begins_in(s, i, c) {
            break;
        }
        i += 16;
    }
    by_bytes(s, i, c)
}

// The place after the lines from `at` on whose first bytes are below `limit`. A line begins at `at`. The place goes on from line to line.
pub fn lines_below(s: &[u8], at: usize, limit: u8) -> usize
    requires { at ≤ length s.now }
    ensures { (result ≡ at + line_where (λ b. leb limit b) true (drop at s.now)) × (at ≤ result) × (result ≤ length s.now) }
{
    let mut i = at;
    while i < s.len() {
        if limit <= s[i] {
            return i;
        }
        i = text::feeds::line_after(s, i);
    }
    i
}
