// The qualifiers of a string, up to its opening delimiter.
ghost use Rattle.std.specs.Prelude.{◌≡◌, ◌≤◌, length};
ghost use Rattle.definitions.specs.Strings.{read_count, read_columns, start_qualifiers};
ghost use Rattle.matching.specs.Quals.{qualifiers_of};
ghost use Rattle.lexer.specs.Places.{cursor_at};
ghost use Rattle.lexer.specs.Answers.{ValueRead, itself, Numbered};
ghost use Rattle.strings.specs.Answers.{Small, read_added, second_column, columns_from, qualifier_here, QualifierRead, QualifiersRead};

use crate::letters::{add_count, add_letter};
use answers::{Answer, Fault, Read};
use lexer::bytes::{expect, is_delimiter, is_digit, next_byte};
use lexer::numbers::number;
use lexer::spaces::skip_spaces;
use matching::Quals;
use text::upper;

// A qualifier that stands at `at` was added or not; `next` is the place after it.
fn added_at(added: Result<Quals, Fault>, at: usize, next: usize) -> Answer<Quals>
    ensures { result ≡ read_added added at next }
{
    match added {
        Ok(value) => Ok(Read { value, next }),
        Err(fault) => Err(fault.at(at)),
    }
}

// A count.
fn read_count(s: &[u8], at: usize, q: Quals) -> Answer<Quals>
    requires { (at ≤ length s.now) × Small q }
    ensures { QualifierRead s.now at (read_count (qualifiers_of q) (cursor_at s.now at)) result }
{
    let count = number(s, at)?;
    added_at(add_count(q, count.value), at, count.next)
}

// The second column of `_n,m_`, from the comma on to the last `_`; it is at least n, else 3 at it.
fn second_column(s: &[u8], at: usize, n: usize) -> Answer<usize>
    requires { at ≤ length s.now }
    ensures { ValueRead s.now itself (Numbered at) (second_column n (cursor_at s.now at)) result }
{
    let after = expect(s, skip_spaces(s, at), b',')?;
    let from = skip_spaces(s, after);
    let column = number(s, from)?;
    if column.value < n {
        return Err(Fault::Argument.at(from));
    }
    let next = expect(s, skip_spaces(s, column.next), b'_')?;
    Ok(Read {
        value: column.value,
        next,
    })
}

// Columns from n, which stands before the place.
fn columns_from(s: &[u8], at: usize, q: Quals, n: usize) -> Answer<Quals>
    requires { (at ≤ length s.now) × (1 ≤ n) × (n ≤ 65535) × Small q }
    ensures { QualifierRead s.now at (columns_from n (qualifiers_of q) (cursor_at s.now at)) result }
{
    let second = second_column(s, at, n)?;
    Ok(Read {
        value: Quals {
            from: n,
            to: second.value,
            ..q
        },
        next: second.next,
    })
}

// Columns, after their first `_`.
fn read_columns(s: &[u8], at: usize, q: Quals) -> Answer<Quals>
    requires { (at ≤ length s.now) × Small q }
    ensures { QualifierRead s.now at (read_columns (qualifiers_of q) (cursor_at s.now at)) result }
{
    let first = number(s, skip_spaces(s, at))?;
    columns_from(s, first.next, q, first.value)
}

// The qualifier at the place; it is no delimiter. 3 at a byte that is none.
fn read_qualifier(s: &[u8], at: usize, q: Quals, in_search: bool) -> Answer<Quals>
    requires { (at ≤ length s.now) × Small q }
    ensures { QualifierRead s.now at (qualifier_here in_search q (cursor_at s.now at)) result }
{
    if s.len() <= at {
        return Err(Fault::Argument.at(at));
    }
    let b = s[at];
    if is_digit(b) {
        return read_count(s, at, q);
    }
    if b == b'_' {
        if q.from != 0 {
            return Err(Fault::Qualifier.at(at));
        }
        return read_columns(s, at + 1, q);
    }
    added_at(add_letter(q, upper(b), in_search), at, at + 1)
}

// The qualifiers up to the opening delimiter, which stands at the place answered.
pub fn read_qualifiers(s: &[u8], at: usize, in_search: bool) -> Answer<Quals>
    requires { at ≤ length s.now }
    ensures { QualifiersRead s.now at (start_qualifiers in_search (cursor_at s.now at)) result }
{
    let mut q = matching::no_qualifiers();
    let mut i = skip_spaces(s, at);
    while !is_delimiter(next_byte(s, i)) {
        let step = read_qualifier(s, i, q, in_search)?;
        q = step.value;
        i = skip_spaces(s, step.next);
    }
    Ok(Read { value: q, next: i })
}
