// Which bytes count for W, as a set in three words: a bit for each byte from 32 to 127.
#![tactic(auto)]

pub mod beside;

ghost use Rattle.std.specs.Prelude.{◌≡◌, true, [], ◌∷◌, suc, ◌+◌, ◌-◌, ◌≤◌, ◌<◌, length, take, drop, get_or};
ghost use Rattle.std.proofs.lemmas.List.Edits.{sets};
ghost use Rattle.definitions.specs.Bytes.{all_text};
ghost use Rattle.definitions.specs.WordSet.{letters_and_digits, is_range, first_name, names_from};
ghost use Rattle.wordset.specs.Sets.{in_set, SetAt};
ghost use Rattle.wordset.specs.Decoding.{first_words, with_byte, with_bytes, name_of, Decodes};

// A set in three words: a bit for each byte from 32 to 127, the lowest bit of the first word first.
pub type WordSet = [u32; 3];

// Is the byte in the set.
pub fn is_in(set: &[u32], b: u8) -> bool
    requires { 3 ≤ length set.now }
    ensures { result ≡ in_set set.now 0 b }
{
    if b < 32 {
        return false;
    }
    if b >= 128 {
        return false;
    }
    (set[(b as usize) / 32 - 1] >> (b % 32)) % 2 == 1
}

// Three words from k on.
pub fn put_three(w: &mut [u32], k: usize, three: WordSet)
    requires { k + 3 ≤ length w.old }
    ensures { w.new ≡ sets w.old k three }
{
    w[k..k + 3].copy_from_slice(&three);
}

// Letters and digits, as where a run begins, in the three words from k on.
pub fn put_letters_and_digits(w: &mut [u32], k: usize)
    requires { k + 3 ≤ length w.old }
    ensures { (w.new ≡ sets w.old k first_words) × SetAt w.new k letters_and_digits }
{
    put_three(w, k, [67043328, 134217726, 134217726]);
}

// A `-` or `"` in WORD's string is misused, at a place of the script.
#[derive(Clone, Copy, Debug, PartialEq, Eq)]
pub struct Misused {
    pub at: usize,
}

// A name: the bytes from one to another, and how many bytes the name has.
#[derive(Clone, Copy)]
struct Name {
    first: u8,
    last: u8,
    len: usize,
}

// x and y are two digits, two capitals or two small letters, and do not fall.
pub fn is_range(x: u8, y: u8) -> bool
    ensures { result ≡ is_range x y }
{
    (x <= y)
        & ((x.is_ascii_digit() & y.is_ascii_digit())
            | (x.is_ascii_uppercase() & y.is_ascii_uppercase())
            | (x.is_ascii_lowercase() & y.is_ascii_lowercase()))
}

// The name that begins at i, or where a `-` or `"` of it is misused. The string ends at `to`.
fn name_at(s: &[u8], i: usize, to: usize) -> Result<Name, Misused>
    requires { (i < to) × (to ≤ length s.now) }
    ensures { result ≡ name_of i (first_name (get_or s.now i 0) (take (to - suc i) (drop (suc i) s.now))) }
{
    let x = s[i];
    let left = to - i;
    if x == b'"' {
        if left < 2 {
            return Err(Misused { at: i });
        }
        return Ok(Name {
            first: s[i + 1],
            last: s[i + 1],
            len: 2,
        });
    }
    if x == b'-' {
        return Err(Misused { at: i });
    }
    let alone = Name {
        first: x,
        last: x,
        len: 1,
    };
    if left < 2 {
        return Ok(alone);
    }
    if s[i + 1] != b'-' {
        return Ok(alone);
    }
    if left < 3 {
        return Err(Misused { at: i + 1 });
    }
    let y = s[i + 2];
    if is_range(x, y) {
        return Ok(Name {
            first: x,
            last: y,
            len: 3,
        });
    }
    Err(Misused { at: i + 1 })
}

// The bit of a byte.
fn put_byte(w: &mut [u32], k: usize, b: u8)
    requires { (k + 3 ≤ length w.old) × (32 ≤ b) × (b < 128) }
    ensures { w.new ≡ with_byte w.old k b }
{
    let i = k + (b / 32 - 1) as usize;
    w[i] = w[i] | (1 << (b % 32));
}

// The bits of the bytes from x to y.
fn put_bytes(w: &mut [u32], k: usize, x: u8, y: u8)
    requires { (k + 3 ≤ length w.old) × (32 ≤ x) × (y < 128) }
    ensures { w.new ≡ with_bytes w.old k x (suc y - x) }
{
    for b in x..=y {
        put_byte(w, k, b);
    }
}

// WORD's string, which the script has from `from` to `to`, as a set in the three words from k on. A name at a time, from the left.
pub fn decode(w: &mut [u32], k: usize, s: &[u8], from: usize, to: usize) -> Result<(), Misused>
    requires { (k + 3 ≤ length w.old) × (from ≤ to) × (to ≤ length s.now) × (all_text (take (to - from) (drop from s.now)) ≡ true) }
    ensures { Decodes (names_from from 0 (take (to - from) (drop from s.now))) w.old k w.new result }
{
    put_three(w, k, [0, 0, 0]);
    let mut i = from;
    while i < to {
        let name = name_at(s, i, to)?;
        put_bytes(w, k, name.first, name.last);
        i += name.len;
    }
    Ok(())
}
