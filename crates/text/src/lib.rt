// Bytes and lines: upper case, where a line ends, the forms of tables and scripts, comparing and copying.
#![tactic(auto)]

pub mod copies;
pub mod feeds;
pub mod runs;

ghost use Rattle.std.specs.Prelude.{◌≡◌, ◌+◌, ◌≤◌, length, take, drop};
ghost use Rattle.definitions.specs.Bytes.{eq_line, upper as «upper_of»};
ghost use Rattle.definitions.specs.Table.{is_script};
ghost use Rattle.text.specs.Lines.{part, line_end, lines_form, table_form};
ghost use Rattle.text.specs.Buffer.{laid};

// a to z become A to Z: 32 less for a byte in that range, 0 less for any other. Document 02, wish 3, wants no `if` or `match` here, which std's method has.
pub fn upper(b: u8) -> u8
    ensures { result ≡ «upper_of» b }
{
    let small = (b'a' <= b) & (b <= b'z');
    b - 32 * u8::from(small)
}

// The end of the line that begins at `at`, which is the index of its LF: the line rule of tables, scripts and journals. None: a byte that may not stand, over 255
// bytes, or no LF.
pub fn line_end(s: &[u8], at: usize) -> Option<usize>
    ensures { result ≡ line_end at (drop at s.now) }
{
    if s.len() <= at {
        return None;
    }
    // The LF is byte 256 of a line at the latest.
    let stop = at + copies::lesser(s.len() - at, 256);
    let i = runs::text_to(s, at, stop);
    if i < stop && s[i] == 10 {
        Some(i)
    } else {
        None
    }
}

// The number of lines, where the bytes are lines, each ended by LF.
// A `while`: the next line stands where this one ends, and an iterator over lines would serve this loop alone.
pub fn lines_form(s: &[u8]) -> Option<usize>
    ensures { result ≡ lines_form s.now }
{
    let mut n: usize = 0;
    let mut at: usize = 0;
    while at < s.len() {
        let e = line_end(s, at)?;
        n += 1;
        at = e + 1;
    }
    Some(n)
}

// The number of lines of a table: at most 65,535. None: it is malformed, number 7.
pub fn table_form(t: &[u8]) -> Option<usize>
    ensures { result ≡ table_form t.now }
{
    let n = lines_form(t)?;
    if n <= 65535 { Some(n) } else { None }
}

// Whether a script's size and bytes are right; if not, its run is refused with number 1.
pub fn is_script(s: &[u8]) -> bool
    ensures { result ≡ is_script s.now }
{
    s.len() <= 16384 && lines_form(s).is_some()
}

// Whether two lines are the same.
pub fn same(a: &[u8], b: &[u8]) -> bool
    ensures { result ≡ eq_line a.now b.now }
{
    a == b
}

// Are the bytes of j from `from` to `to` the first m bytes of line.
pub fn is_same(j: &[u8], from: usize, to: usize, line: &[u8], m: usize) -> bool
    requires { (from ≤ to) × (to ≤ length j.now) × (m ≤ length line.now) }
    ensures { result ≡ eq_line (part from to j.now) (take m line.now) }
{
    same(&j[from..to], &line[..m])
}

// Copies `src` into `dest` from `at` on.
pub fn copy(src: &[u8], dest: &mut [u8], at: usize)
    requires { at + length src.now ≤ length dest.old }
    ensures { dest.new ≡ laid dest.old at src.now }
{
    dest[at..at + src.len()].copy_from_slice(src);
}
