// Checks that bytes are a journal, and measures what its readers write.
ghost use Rattle.std.specs.Prelude.{◌≡◌, ◌+◌, ◌*◌};
ghost use Rattle.definitions.specs.Journal.{records_of};
ghost use Rattle.journal.specs.Records.{InOrder};
ghost use Rattle.journal.specs.Measuring.{AtMost, span_lines, span_length, with_record, checked, length_by, room_for};

use crate::records;
use crate::records::{Extent, Records, Span, View};

// The old side's lines and bytes, and the new side's.
#[derive(Clone, Copy)]
pub struct Measures {
    pub lines: usize,
    pub old: usize,
    pub shown: usize,
    pub new: usize,
}

// 1 for a line, 0 for none.
#[tactic(auto, unfolding(crate::specs::Measuring::span_lines))]
fn span_lines(s: Option<Span>) -> usize
    ensures { result ≡ span_lines s }
{
    usize::from(s.is_some())
}

// The number of bytes.
#[tactic(auto, unfolding(crate::specs::Measuring::span_length))]
fn span_length(s: Option<Span>) -> usize
    ensures { result ≡ span_length s }
{
    match s {
        Some(line) => line.to.saturating_sub(line.from),
        None => 0,
    }
}

// The measures with one record more.
fn count(m: Measures, x: Extent) -> Measures
    requires { InOrder x × AtMost m x.at }
    ensures { result ≡ with_record m x }
{
    let old = records::old_span(x);
    let new = records::new_span(x);
    Measures {
        lines: m.lines + span_lines(old),
        old: m.old + span_length(old),
        shown: m.shown + span_lines(new),
        new: m.new + span_length(new),
    }
}

// The measures of bytes that are a journal with at most 65,535 old-side lines.
pub fn check(j: &[u8]) -> Option<Measures>
    ensures { result ≡ checked (records_of j.now) }
{
    let mut m = Measures {
        lines: 0,
        old: 0,
        shown: 0,
        new: 0,
    };
    let mut left = Records::from_start(j);
    while let Some(x) = left.next() {
        if records::unchanged(j, x) {
            return None;
        }
        m = count(m, x);
    }
    if left.at < j.len() {
        return None;
    }
    (m.lines <= 65535).then_some(m)
}

// The number of bytes that a view writes, where they fit into `size`. No sum here can pass the largest number.
#[tactic(auto, unfolding(crate::specs::Measuring::length_by))]
pub fn fits(view: View, m: Measures, size: usize) -> Option<usize>
    ensures { result ≡ room_for (length_by view m) size }
{
    match view {
        View::OldSide => room_for(m.old, size),
        View::NewSide => room_for(m.new, size),
        View::Listing => listing_room(m.shown, m.new, size),
    }
}

#[tactic(auto, unfolding(crate::specs::Measuring::room_for))]
fn room_for(n: usize, size: usize) -> Option<usize>
    ensures { result ≡ room_for n size }
{
    (n <= size).then_some(n)
}

// Each of `shown` lines has seven bytes before it.
fn listing_room(shown: usize, new: usize, size: usize) -> Option<usize>
    ensures { result ≡ room_for (7 * shown + new) size }
{
    if size / 7 < shown {
        return None;
    }
    let heads = 7 * shown;
    if size - heads < new {
        return None;
    }
    Some(heads + new)
}
