// Bytes copied from one slice to another, and within one.
ghost use Rattle.std.specs.Prelude.{◌≡◌, ◌+◌, ◌≤◌, min, length, drop};
ghost use Rattle.std.proofs.Math.Seq.{paste};

// A piece is copied at once.
const PIECE: usize = 256;

// The lesser of two numbers.
pub fn lesser(a: usize, b: usize) -> usize
    ensures { result ≡ min a b }
{
    a.min(b)
}

// The n bytes of s from `from` on are written over those of d from `at` on.
pub fn copy_in(d: &mut [u8], at: usize, s: &[u8], from: usize, n: usize)
    requires { (at + n ≤ length d.old) × (from + n ≤ length s.now) }
    ensures { d.new ≡ paste d.old at (drop from s.now) n }
{
    d[at..at + n].copy_from_slice(&s[from..from + n]);
}

// The n bytes from `from` on, 256 at most, are written over those from `at` on, which may overlap them. By way of an array, which can overlap nothing, it is
// compiled to one memmove; std's `copy_within` is a loop, and one of single bytes where the bytes stay where they are.
fn piece_within(d: &mut [u8], at: usize, from: usize, n: usize)
    requires { (n ≤ 256) × (at + n ≤ length d.old) × (from + n ≤ length d.old) }
    ensures { d.new ≡ paste d.old at (drop from d.old) n }
{
    let mut b = [0u8; PIECE];
    copy_in(&mut b, 0, d, from, n);
    copy_in(d, at, &b, 0, n);
}

// The n bytes from `from` on are written over those from `at` on, which begin before them: from the first piece on.
pub fn copy_down(d: &mut [u8], at: usize, from: usize, n: usize)
    requires { (at ≤ from) × (from + n ≤ length d.old) }
    ensures { d.new ≡ paste d.old at (drop from d.old) n }
{
    let mut i: usize = 0;
    while i < n {
        let k = (n - i).min(PIECE);
        piece_within(d, at + i, from + i, k);
        i += k;
    }
}

// The same where they begin behind them: from the last piece on.
pub fn copy_up(d: &mut [u8], at: usize, from: usize, n: usize)
    requires { (from ≤ at) × (at + n ≤ length d.old) }
    ensures { d.new ≡ paste d.old at (drop from d.old) n }
{
    let mut left = n;
    while 0 < left {
        let k = left.min(PIECE);
        left -= k;
        piece_within(d, at + left, from + left, k);
    }
}
