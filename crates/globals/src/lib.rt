// What the run carries from step to step, in the first words of the work area's reserve: the globals that stand, GE, GA and GB kept for every line that is
// read, in 16 words; then the set of the bytes that count for W, in 3.
#![tactic(auto)]

mod one;

ghost use Rattle.std.specs.Prelude.{◌≡◌, ◌+◌, ◌-◌, ◌≤◌, ◌<◌, length, take, set, eqb};
ghost use Rattle.definitions.specs.Given.{Carried};
ghost use Rattle.items.specs.Reserve.{reserve};
ghost use Rattle.globals.specs.Standing.{Standing, set_in, standing, Keeps, begun, with_set};
ghost use Rattle.globals.specs.Passing.{PassesAll};

use wordset::WordSet;

// The reserve's words, and how many of them are for globals; the word set stands after those.
const RESERVE: usize = 51;

const MOST: usize = 16;

// A line's text as globals leave it has more than 255 bytes, which stops with 25.
#[derive(Clone, Copy, Debug, PartialEq, Eq)]
pub struct TooLong;

// How many globals stand.
fn count(w: &[u32]) -> usize
    requires { reserve ≤ length w.now }
    ensures { (result ≡ standing w.now) × (result ≤ 16) }
{
    let top = w.len() - RESERVE;
    for n in 0..MOST {
        if w[top + n] == 0 {
            return n;
        }
    }
    MOST
}

// Whether none stands.
pub fn none_stands(w: &[u32]) -> bool
    requires { reserve ≤ length w.now }
    ensures { result ≡ eqb (standing w.now) 0 }
{
    let top = w.len() - RESERVE;
    w[top] == 0
}

// None stands from now on.
pub fn forget(w: &mut [u32])
    requires { reserve ≤ length w.old }
    ensures { w.new ≡ set w.old (length w.old - reserve) 0 }
{
    let top = w.len() - RESERVE;
    w[top] = 0;
}

// As where a run begins: none stands, and letters and digits count for W.
pub fn begin(w: &mut [u32])
    requires { reserve ≤ length w.old }
    ensures { w.new ≡ begun w.old }
{
    let at = w.len() - RESERVE + MOST;
    forget(w);
    wordset::put_letters_and_digits(w, at);
}

// The set of the bytes that count for W.
pub fn word_set<'a>(w: &'a [u32]) -> &'a WordSet
    requires { reserve ≤ length w.now }
    ensures { result.now ≡ set_in w.now }
{
    let at = w.len() - RESERVE + MOST;
    w[at..].first_chunk().unwrap()
}

// WORD, the item at k: its set counts for W from now on.
pub fn name_words(w: &mut [u32], k: usize)
    requires { k + 4 + reserve ≤ length w.old }
    ensures { w.new ≡ with_set w.old k }
{
    let at = w.len() - RESERVE + MOST;
    let three = [w[k + 1], w[k + 2], w[k + 3]];
    wordset::put_three(w, at, three);
}

// The item at k stands after the others. False, and nothing is written, where sixteen stand.
pub fn keep(w: &mut [u32], k: usize) -> bool
    requires { (reserve ≤ length w.old) × (k < 65536) }
    ensures { Keeps w.old k w.new result }
{
    let n = count(w);
    if n == MOST {
        return false;
    }
    let at = w.len() - RESERVE + n;
    w[at] = k as u32 + 1;
    if n + 1 < MOST {
        w[at + 1] = 0;
    }
    true
}

// The length of the text in the first n bytes of the line, passed through all globals that stand, each on what the one before it left.
pub fn pass(script: &[u8], w: &[u32], line: &mut [u8], n: usize) -> Result<usize, TooLong>
    requires { ((c : Carried) × Standing script.now w.now c) × (n ≤ 255) × (256 ≤ length line.old) }
    ensures { PassesAll script.now w.now (take n line.old) result line.new }
{
    let top = w.len() - RESERVE;
    let mut len = n;
    for i in 0..MOST {
        let word = w[top + i];
        if word == 0 {
            return Ok(len);
        }
        len = one::apply(script, w, (word - 1) as usize, line, len)?;
    }
    Ok(len)
}
