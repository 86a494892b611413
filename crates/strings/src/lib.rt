// Qualified strings. A reader takes the script and a place, and answers what stands there and the place after it, or a
// refusal: its number and its place.
#![tactic(auto)]

mod letters; // letters.rt: which qualifiers may stand together
mod qualifiers; // qualifiers.rt: the qualifiers of a string

ghost use Rattle.std.specs.Prelude.{◌≡◌, true, ℕ, ◌≤◌, length};
ghost use Rattle.definitions.specs.Matching.{Qualifiers, Qualified};
ghost use Rattle.definitions.specs.Patterns.{Pattern};
ghost use Rattle.definitions.specs.Reader.{Got, and_then};
ghost use Rattle.definitions.specs.Strings.{wants_bytes, read_string, start_qualifiers, qualified_string, second_string};
ghost use Rattle.marks.specs.Sweeping.{Reads};
ghost use Rattle.matching.specs.Quals.{qualifiers_of};
ghost use Rattle.lexer.specs.Places.{cursor_at};
ghost use Rattle.strings.specs.Answers.{Small, Finished, BytesRead, OpenAt, Quoted, QuotedOf, PairedOf, PairRead, PlainRead};

use answers::{Answer, Fault, Part, Read};
use leads::leads_of;
use lexer::spaces::skip_spaces;
use lexer::strings::{past_delimiter, quoted, string_end};
use matching::Quals;
use qualifiers::read_qualifiers;

// A qualified string: its bytes are a part of the script.
#[derive(Clone, Copy)]
pub struct OneString {
    pub quals: Quals,
    pub part: Part,
}

// A qualified string and a second string: they share the middle delimiter.
#[derive(Clone, Copy)]
pub struct TwoStrings {
    pub first: OneString,
    pub second: Part,
}

fn wants_bytes(q: Quals) -> bool
    requires { Small q }
    ensures { result ≡ wants_bytes (qualifiers_of q) }
{
    if q.count != 0 {
        return true;
    }
    q.word
}

// The qualifiers of a pattern: for a count, which R does not stand with, the bytes that a match can begin with. A pattern is no longer than a line.
fn with_leads(q: Quals, pattern: &[u8]) -> Quals
    requires { Small q × (q.pattern ≡ true) × ((p : Pattern) × Reads pattern.now p) }
    ensures { Finished q pattern.now result }
{
    if pattern.len() > 255 {
        return q;
    }
    let leads = leads_of(pattern);
    let mut more = q;
    more.count = (leads.low as usize) + 256 * (leads.high as usize);
    more
}

// The string's bytes: where R is given they are a pattern, else 34 at the one that cannot stand.
fn read_bytes(s: &[u8], q: Quals, part: Part, next: usize) -> Answer<OneString>
    requires { Small q × (part.start ≤ part.end) × (part.end ≤ length s.now) }
    ensures { BytesRead s.now q part.start part.end next result }
{
    if q.pattern {
        return match patterns::read(&s[part.start..part.end]) {
            Err(fault) => Err(Fault::Pattern.at(part.start + fault.at)),
            Ok(()) => {
                let quals = with_leads(q, &s[part.start..part.end]);
                Ok(Read {
                    value: OneString { quals, part },
                    next,
                })
            }
        };
    }
    Ok(Read {
        value: OneString { quals: q, part },
        next,
    })
}

// The string at its opening delimiter.
fn read_string(s: &[u8], at: usize, q: Quals) -> Answer<OneString>
    requires { (from : ℕ) × (y : Got Qualifiers) × OpenAt s.now from y q at }
    ensures { (from : ℕ) (y : Got Qualifiers) → OpenAt s.now from y q at → Quoted s.now from y (read_string (qualifiers_of q) (cursor_at s.now at)) result }
{
    let d = s[at];
    let start = at + 1;
    let end = string_end(s, start, d);
    if end == start {
        if wants_bytes(q) {
            return Err(Fault::Qualifier.at(at));
        }
    }
    read_bytes(s, q, Part { start, end }, past_delimiter(s, end, d))
}

// A qualified string at the place.
pub fn qualified_string(s: &[u8], at: usize, in_search: bool) -> Answer<OneString>
    requires { at ≤ length s.now }
    ensures { Quoted s.now at (start_qualifiers in_search (cursor_at s.now at)) (qualified_string in_search (cursor_at s.now at)) result }
{
    let quals = read_qualifiers(s, at, in_search)?;
    read_string(s, quals.next, quals.value)
}

// The second string, after the first one; d is their delimiter.
fn with_second(s: &[u8], first: Read<OneString>, d: u8) -> Read<TwoStrings>
    requires { (at : ℕ) × (y : Got Qualifiers) × (x : Got Qualified) × QuotedOf s.now at y x first.value first.next }
    ensures { (at : ℕ) (y : Got Qualifiers) (x : Got Qualified) → QuotedOf s.now at y x first.value first.next → PairedOf s.now at y x (and_then x (λ q c. second_string d q c)) result.value result.next }
{
    let start = first.next;
    let end = string_end(s, start, d);
    Read {
        value: TwoStrings {
            first: first.value,
            second: Part { start, end },
        },
        next: past_delimiter(s, end, d),
    }
}

// A qualified string and a second string at the place.
pub fn two_strings(s: &[u8], at: usize) -> Answer<TwoStrings>
    requires { at ≤ length s.now }
    ensures { PairRead s.now at result }
{
    let quals = read_qualifiers(s, at, false)?;
    let open = quals.next;
    let first = read_string(s, open, quals.value)?;
    Ok(with_second(s, first, s[open]))
}

// Two strings without qualifiers at the place; the first has a byte at least.
pub fn two_plain_strings(s: &[u8], at: usize) -> Answer<TwoStrings>
    requires { at ≤ length s.now }
    ensures { PlainRead s.now at result }
{
    let open = skip_spaces(s, at);
    let string = quoted(s, open)?;
    let part = string.value;
    if part.start == part.end {
        return Err(Fault::Qualifier.at(open));
    }
    let first = Read {
        value: OneString {
            quals: matching::no_qualifiers(),
            part,
        },
        next: string.next,
    };
    Ok(with_second(s, first, s[open]))
}
