// Bytes as hexadecimal digits, two to a byte.
ghost use Rattle.std.specs.Prelude.{◌≡◌, ◌<◌, ◌≤◌, length};
ghost use Rattle.text.specs.Buffer.{laid};
ghost use Rattle.cases.specs.Hex.{digit_of, hex_digit, bytes_for, digits_for};

use std::io;

// The value of a hexadecimal digit; 0 of any other byte.
pub fn digit(b: u8) -> u8
    ensures { (result ≡ digit_of b) × (result < 16) }
{
    match b {
        b'0'..=b'9' => b - b'0',
        b'a'..=b'f' => b - b'a' + 10,
        _ => 0,
    }
}

fn hex_digit(d: u8) -> u8
    requires { d < 16 }
    ensures { result ≡ hex_digit d }
{
    if d < 10 { b'0' + d } else { b'a' + (d - 10) }
}

// The bytes of hexadecimal digits, as many as there is room for. `-` is no bytes.
pub fn from_hex(s: &[u8], out: &mut [u8]) -> usize
    ensures value { (result ≡ length (bytes_for (length out.old) s.now)) × (result ≤ length out.old) }
    ensures out_after { out.new ≡ laid out.old 0 (bytes_for (length out.old) s.now) }
{
    let most = (s.len() / 2).min(out.len());
    for n in 0..most {
        out[n] = 16 * digit(s[2 * n]) + digit(s[2 * n + 1]);
    }
    most
}

// The hexadecimal digits of bytes, as many as there is room for.
fn to_hex(s: &[u8], out: &mut [u8]) -> usize
    ensures value { (result ≡ length (digits_for (length out.old) s.now)) × (result ≤ length out.old) }
    ensures out_after { out.new ≡ laid out.old 0 (digits_for (length out.old) s.now) }
{
    let most = s.len().min(out.len() / 2);
    for i in 0..most {
        out[2 * i] = hex_digit(s[i] / 16);
        out[2 * i + 1] = hex_digit(s[i] % 16);
    }
    2 * most
}

// Writes bytes as hexadecimal digits, by way of `hex`; `-` for none.
pub fn write_hex<R: Print>(rt: &R, s: &[u8], hex: &mut [u8]) -> io::Result<()>
    ensures { hex.new ≡ laid hex.old 0 (digits_for (length hex.old) s.now) }
{
    if s.is_empty() {
        return rt.write_all(b"-");
    }
    let n = to_hex(s, hex);
    rt.write_all(&hex[..n])
}
