// Bytes of text, eight at a time.
ghost use Rattle.std.specs.Prelude.{◌≡◌, ◌+◌, ◌-◌, ◌≤◌, length, take, drop};
ghost use Rattle.text.specs.Words.{text_run};

// How many of eight bytes stand before the first that is not text.
fn text_in_word(bytes: &[u8; 8]) -> usize
    ensures { result ≡ text_run bytes.now }
{
    let w = u64::from_le_bytes(*bytes);
    // 32 less in each byte, and 1 more: the first byte that is not text has its highest digit set in one of the two, and no byte before it has.
    let less = w.wrapping_sub(0x2020202020202020);
    let more = w.wrapping_add(0x0101010101010101);
    let odd = (less | more) & 0x8080808080808080;
    (odd.trailing_zeros() / 8) as usize
}

// How many bytes stand before the first that is not text: byte by byte.
fn text_by_bytes(s: &[u8]) -> usize
    ensures { result ≡ text_run s.now }
{
    match s.iter().position(|b| !(32..=126).contains(b)) {
        Some(i) => i,
        None => s.len(),
    }
}

// The same: eight bytes at a time while there are eight.
fn text_in(s: &[u8]) -> usize
    ensures { result ≡ text_run s.now }
{
    let mut rest = s;
    while let Some((eight, others)) = rest.split_first_chunk() {
        let n = text_in_word(eight);
        if n < 8 {
            return s.len() - rest.len() + n;
        }
        rest = others;
    }
    s.len() - rest.len() + text_by_bytes(rest)
}

// The place of the first byte that is not text, from `at` up to `stop`.
pub fn text_to(s: &[u8], at: usize, stop: usize) -> usize
    requires { (at ≤ stop) × (stop ≤ length s.now) }
    ensures { result ≡ at + text_run (take (stop - at) (drop at s.now)) }
{
    at + text_in(&s[at..stop])
}
