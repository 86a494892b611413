// The lines of a file of cases, and the fields of a line, which spaces part.
ghost use Rattle.std.specs.Prelude.{◌≡◌, ◌≤◌, min, length, take};
ghost use Rattle.text.specs.Buffer.{laid};
ghost use Rattle.cases.specs.Fields.{next_of, field_from, FieldIn, value_of, number_in, hex_in};

use crate::hex::{digit, from_hex};
use scans::{Kind, past};

// The next byte `b` from `at` on, or the end.
fn field_end(s: &[u8], at: usize, b: u8) -> usize
    requires { at ≤ length s.now }
    ensures { (result ≡ next_of b s.now at) × (at ≤ result) × (result ≤ length s.now) }
{
    past(s, at, s.len(), Kind::Not(b))
}

// A part of a line.
#[derive(Clone, Copy)]
pub struct Part {
    pub start: usize,
    pub end: usize,
}

// The field of `s` after k spaces; what follows the last space where there are fewer.
pub fn field(s: &[u8], k: usize) -> Part
    ensures { (result ≡ field_from k s.now 0) × FieldIn s.now result }
{
    let mut start: usize = 0;
    for _ in 0..k {
        let end = field_end(s, start, b' ');
        if s.len() <= end {
            return Part { start, end };
        }
        start = end + 1;
    }
    Part {
        start,
        end: field_end(s, start, b' '),
    }
}

// The line up to the end of the field after k spaces.
pub fn through_field(s: &[u8], k: usize) -> &[u8]
    ensures { result.now ≡ take (field_from k s.now 0).end s.now }
{
    &s[..field(s, k).end]
}

// A decimal number, at most 65,535.
fn number(s: &[u8]) -> usize
    ensures { result ≡ min 65535 (value_of 0 s.now) }
{
    let mut n: usize = 0;
    for b in s {
        n = 10 * n + usize::from(digit(*b));
        if 65535 < n {
            return 65535;
        }
    }
    n
}

// The number in the field after k spaces.
pub fn number_at(s: &[u8], k: usize) -> usize
    ensures { (result ≡ number_in k s.now) × (result ≤ 65535) }
{
    let f = field(s, k);
    number(&s[f.start..f.end])
}

// The bytes of the hexadecimal digits in the field after k spaces, and how many they are.
pub fn bytes_at(s: &[u8], k: usize, out: &mut [u8]) -> usize
    ensures value { (result ≡ length (hex_in k (length out.old) s.now)) × (result ≤ length out.old) }
    ensures out_after { out.new ≡ laid out.old 0 (hex_in k (length out.old) s.now) }
{
    let f = field(s, k);
    from_hex(&s[f.start..f.end], out)
}
