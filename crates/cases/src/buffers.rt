// Buffers that are lent in a case: each byte is 7 before the call, so that a byte that was touched shows.
ghost use Rattle.std.specs.Prelude.{◌≡◌, length, replicate};
ghost use Rattle.cases.specs.Buffers.{all_are};

use scans::{Kind, past_long};

// Sets each byte to 7.
pub fn fill(s: &mut [u8])
    ensures { s.new ≡ replicate (length s.old) 7 }
{
    s.fill(7);
}

// Whether each byte is `b`: eight bytes at a time, as the buffers are long. `all` looks at one after the other, and each waits for the one before.
pub fn all_are(s: &[u8], b: u8) -> bool
    ensures { result ≡ all_are b s.now }
{
    past_long(s, 0, s.len(), Kind::Only(b)) == s.len()
}
