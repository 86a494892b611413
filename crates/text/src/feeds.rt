// Where lines begin and end among bytes of any kind: at a line feed, which is all that is looked for.
ghost use Rattle.std.specs.Prelude.{◌≡◌, ◌+◌, ◌<◌, ◌≤◌, length, drop};
ghost use Rattle.text.specs.Feeds.{place_of, has_feed, line_length, line_start};

// The place of the next byte c from `at` on, or the end. It is no byte of text, so that text is passed over eight bytes at a time, which `position` would not.
pub fn place_after(s: &[u8], at: usize, c: u8) -> usize
    requires { (at ≤ length s.now) × (c < 32) }
    ensures { result ≡ at + place_of c (drop at s.now) }
{
    let mut i = crate::runs::text_to(s, at, s.len());
    while i < s.len() {
        if s[i] == c {
            return i;
        }
        i = crate::runs::text_to(s, i + 1, s.len());
    }
    i
}

// The place after the next line feed from `at` on, or the end.
pub fn line_after(s: &[u8], at: usize) -> usize
    requires { at ≤ length s.now }
    ensures { result ≡ at + line_length (drop at s.now) }
{
    let i = place_after(s, at, b'\n');
    if i < s.len() { i + 1 } else { i }
}

// Whether a line feed is among 16 bytes. No way leads out of the fold, so that all 16 are looked at at once.
fn feed_in(bytes: &[u8; 16]) -> bool
    ensures { result ≡ has_feed bytes.now }
{
    bytes.iter().fold(false, |found, b| found | (*b == b'\n'))
}

// The start of the last line of bytes, which may be empty: byte by byte.
fn start_by_bytes(s: &[u8]) -> usize
    ensures { result ≡ line_start s.now (length s.now) }
{
    match s.iter().rposition(|b| *b == b'\n') {
        Some(i) => i + 1,
        None => 0,
    }
}

// The start of the line that place k is in: 16 bytes at a time as long as no line feed is among them.
pub fn line_start(s: &[u8], k: usize) -> usize
    requires { k ≤ length s.now }
    ensures { result ≡ line_start s.now k }
{
    let mut rest = &s[..k];
    while let Some((front, last)) = rest.split_last_chunk() {
        if feed_in(last) {
            break;
        }
        rest = front;
    }
    start_by_bytes(rest)
}
