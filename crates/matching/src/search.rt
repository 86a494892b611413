// Searches as words in the work area: reading and testing them, and writing them.
ghost use Rattle.std.specs.Prelude.{◌≡◌, ℕ, ◌+◌, ◌*◌, ◌/◌, ◌%◌, ◌≤◌, ◌<◌, List, length};
ghost use Rattle.std.proofs.lemmas.List.Edits.{sets};
ghost use Rattle.definitions.specs.Matching.{matches};
ghost use Rattle.definitions.specs.Search.{Search, holds as «holds_of», holds_at_eof};
ghost use Rattle.wordset.specs.Sets.{in_set};
ghost use Rattle.matching.specs.Quals.{qualifiers_of};
ghost use Rattle.matching.specs.Words.{flags_of, first_word, second_word, string_words, led_in, Writable, Encodes, HasQuals, Readable, flags_at, start_at, length_at, columns_at, quals_at, string_at, end_at, onward};

use super::{Quals, matches_line};

// The word of the columns; 0 where none are given.
fn columns_at(words: &[u32], k: usize, flags: u32) -> u32
    requires { (flags ≡ flags_at words.now k) × (flags / 128 % 2 ≡ 1 → k + 2 < length words.now) }
    ensures { result ≡ columns_at words.now k }
{
    if flags / 128 % 2 == 0 {
        return 0;
    }
    words[k + 2]
}

// The qualifiers of the string at k.
pub fn quals_at(words: &[u32], k: usize) -> Quals
    requires { HasQuals words.now k }
    ensures { result ≡ quals_at words.now k }
{
    let flags = words[k] / 4 % 512;
    let columns = columns_at(words, k, flags);
    Quals {
        anchor: (flags % 4) as u8,
        count: (words[k + 1] / 256) as usize,
        last: flags / 4 % 2 == 1,
        negated: flags / 8 % 2 == 1,
        word: flags / 16 % 2 == 1,
        fold: flags / 32 % 2 == 1,
        skip: flags / 64 % 2 == 1,
        from: (columns % 65536) as usize,
        to: (columns / 65536) as usize,
        pattern: flags / 256 == 1,
    }
}

// Where the words of the string at k end.
pub fn end_at(words: &[u32], k: usize) -> usize
    requires { k < length words.now }
    ensures { result ≡ end_at words.now k }
{
    if words[k] / 4 % 512 / 128 % 2 == 0 {
        return k + 2;
    }
    k + 3
}

// Where the string at k starts in the script.
pub fn start_at(words: &[u32], k: usize) -> usize
    requires { k < length words.now }
    ensures { result ≡ start_at words.now k }
{
    (words[k] / 2048) as usize
}

// The length of the string at k.
pub fn length_at(words: &[u32], k: usize) -> usize
    requires { k + 1 < length words.now }
    ensures { result ≡ length_at words.now k }
{
    (words[k + 1] % 256) as usize
}

// Does the string at k match the line, with the window from p.
fn string_holds(script: &[u8], words: &[u32], k: usize, set: &[u32], line: &[u8], p: usize) -> bool
    requires { Readable script.now words.now k × (3 ≤ length set.now) × (p ≤ length line.now) × (length line.now ≤ 255) }
    ensures { result ≡ matches (in_set set.now 0) (string_at script.now words.now k) p line.now }
{
    let q = quals_at(words, k);
    let start = start_at(words, k);
    let end = start + length_at(words, k);
    matches_line(set, line, p, q, &script[start..end])
}

// Where the test goes on after the word at k, which joins two parts.
fn after_joint(words: &[u32], k: usize, truth: bool) -> usize
    requires { k < length words.now }
    ensures { result ≡ onward words.now k truth }
{
    let w = words[k];
    if w % 4 == 1 {
        if truth {
            return k + 1;
        }
        return (w / 4) as usize;
    }
    if truth {
        return (w / 4) as usize;
    }
    k + 1
}

// Does the search in the words from k to m hold on the line, with the window from p, where the bytes of the set count for W. A part that cannot change
// the result is not tested.
pub fn holds(
    script: &[u8],
    words: &[u32],
    k: usize,
    m: usize,
    set: &[u32],
    line: &[u8],
    p: usize,
) -> bool
    requires { ((se : Search) × Encodes script.now words.now k m se) × (3 ≤ length set.now) × (p ≤ length line.now) × (length line.now ≤ 255) }
    ensures { (se : Search) → Encodes script.now words.now k m se → result ≡ «holds_of» (in_set set.now 0) se p line.now }
{
    let mut at = k;
    let mut truth = true;
    while at < m {
        if words[at] % 4 == 0 {
            truth = string_holds(script, words, at, set, line, p);
            at = end_at(words, at);
        } else {
            at = after_joint(words, at, truth);
        }
    }
    truth
}

// Does the search in the words from k to m hold at EOF. The words are walked as on a line; a string holds there if it has N.
pub fn holds_at_eof(words: &[u32], k: usize, m: usize) -> bool
    requires { (script : List ℕ) × (se : Search) × Encodes script words.now k m se }
    ensures { (script : List ℕ) (se : Search) → Encodes script words.now k m se → result ≡ holds_at_eof se }
{
    let mut at = k;
    let mut truth = true;
    while at < m {
        if words[at] % 4 == 0 {
            let q = quals_at(words, at);
            truth = q.negated;
            at = end_at(words, at);
        } else {
            at = after_joint(words, at, truth);
        }
    }
    truth
}

// The anchor, and a bit for each of L, N, W, U, S, columns and R.
fn flags_of(q: Quals) -> u32
    requires { q.anchor ≤ 3 }
    ensures { (result ≡ flags_of (qualifiers_of q)) × (result ≤ 511) }
{
    let last = 4 * u32::from(q.last);
    let negated = 8 * u32::from(q.negated);
    let word = 16 * u32::from(q.word);
    let fold = 32 * u32::from(q.fold);
    let skip = 64 * u32::from(q.skip);
    let columns = 128 * u32::from(0 < q.from);
    let pattern = 256 * u32::from(q.pattern);
    q.anchor as u32 + last + negated + word + fold + skip + columns + pattern
}

// The word of the flags and of the place where the string starts.
pub fn first_word(q: Quals, start: usize) -> u32
    requires { (q.anchor ≤ 3) × (start ≤ 65535) }
    ensures { result ≡ first_word (qualifiers_of q) start }
{
    4 * (flags_of(q) + 512 * (start as u32))
}

// The word of the string's length and of the count, or of the bytes that a pattern's matches can begin with.
pub fn second_word(q: Quals, len: usize) -> u32
    requires { (q.count ≤ 65535) × (len ≤ 255) }
    ensures { result ≡ second_word (qualifiers_of q) len (led_in q) }
{
    len as u32 + 256 * (q.count as u32)
}

// Writes the words of a string of the script from k on, and gives the place after them.
pub fn put_string(words: &mut [u32], k: usize, q: Quals, start: usize, len: usize) -> usize
    requires { Writable q start len × (k + length (string_words (qualifiers_of q) start len (led_in q)) ≤ length words.old) }
    ensures { (words.new ≡ sets words.old k (string_words (qualifiers_of q) start len (led_in q))) × (result ≡ k + length (string_words (qualifiers_of q) start len (led_in q))) }
{
    words[k] = first_word(q, start);
    words[k + 1] = second_word(q, len);
    if q.from == 0 {
        return k + 2;
    }
    words[k + 2] = q.from as u32 + 65536 * (q.to as u32);
    k + 3
}
