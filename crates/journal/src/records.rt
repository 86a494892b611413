// The grammar of records, and which of a record's lines stands on which side. A new mark is a new row here.
ghost use Rattle.std.specs.Prelude.{◌≡◌, ◌-◌, length, drop, Some};
ghost use Rattle.std.specs.Iterator.{at_most};
ghost use Rattle.journal.specs.Walk.{Walks};
ghost use Rattle.journal.specs.Records.{mark_of, mark_in, record_at, unchanged_in, InOrder, first_line, last_line, old_span, new_span, view_span};

// What became of a line.
#[derive(Clone, Copy, PartialEq, Eq, Debug)]
pub enum Mark {
    Kept,
    Changed,
    Deleted,
    Inserted,
}

// A record of a journal, by places: its mark, the LF of its first line, the LF of its last line.
#[derive(Clone, Copy)]
pub struct Extent {
    pub at: usize,
    pub mark: Mark,
    pub mid: usize,
    pub end: usize,
}

// What is read out of a journal.
// A `match` on it stands in three functions, a row for each view; with closures or a trait, the three rows of a view would stand no nearer to one another.
#[derive(Clone, Copy)]
pub enum View {
    OldSide,
    NewSide,
    Listing,
}

// The bytes of a line with its LF, from the first place up to the second.
#[derive(Clone, Copy)]
pub struct Span {
    pub from: usize,
    pub to: usize,
}

// `==`, `<>`, `--` or `++`.
#[tactic(auto, unfolding(crate::specs::Records::mark_of))]
pub fn mark_of(a: u8, b: u8) -> Option<Mark>
    ensures { result ≡ mark_of a b }
{
    match a {
        61 => (b == 61).then_some(Mark::Kept),
        60 => (b == 62).then_some(Mark::Changed),
        45 => (b == 45).then_some(Mark::Deleted),
        43 => (b == 43).then_some(Mark::Inserted),
        _ => None,
    }
}

// The mark at a place.
pub fn mark_at(j: &[u8], at: usize) -> Option<Mark>
    ensures { result ≡ mark_in (drop at j.now) }
{
    match j.get(at..)? {
        [a, b, ..] => mark_of(*a, *b),
        _ => None,
    }
}

// The record at a place.
pub fn record_at(j: &[u8], at: usize) -> Option<Extent>
    ensures { result ≡ record_at j.now at }
{
    let mark = mark_at(j, at)?;
    let mid = text::line_end(j, at + 2)?;
    if mark == Mark::Changed {
        let end = text::line_end(j, mid + 1)?;
        return Some(Extent { at, mark, mid, end });
    }
    Some(Extent {
        at,
        mark,
        mid,
        end: mid,
    })
}

// The records from the place `at` on, one after the other. Where none stands, at the end or in bytes that are no journal, they end, and `at` is that place.
#[derive(Drop)]
pub struct Records<'a> {
    pub j: &'a [u8],
    pub at: usize,
}

impl<'a> Records<'a> {
    // All records of a journal.
    pub fn from_start(j: &'a [u8]) -> Records<'a>
        ensures bytes { result.j.now ≡ j.now }
        ensures start { result.at ≡ 0 }
    {
        Records { j, at: 0 }
    }
}

impl<'a> Iterator for Records<'a> {
    type Item = Extent;

    ghost next_gives = { Walks };

    ghost remaining = { λ s. at_most (length s.j.now - s.at) };

    fn next(&mut self) -> Option<Extent> {
        let x = record_at(self.j, self.at)?;
        self.at = x.end + 1;
        Some(x)
    }
}

// Whether a changed record's lines are equal: such bytes are no journal.
pub fn unchanged(j: &[u8], x: Extent) -> bool
    requires { record_at j.now x.at ≡ Some x }
    ensures { result ≡ unchanged_in j.now x }
{
    x.mark == Mark::Changed && text::same(&j[x.at + 2..x.mid], &j[x.mid + 1..x.end])
}

// The line after a record's mark.
pub fn first_line(x: Extent) -> Span
    requires { InOrder x }
    ensures { result ≡ first_line x }
{
    Span {
        from: x.at + 2,
        to: x.mid + 1,
    }
}

// The second line of a changed record.
fn last_line(x: Extent) -> Span
    requires { InOrder x }
    ensures { result ≡ last_line x }
{
    Span {
        from: x.mid + 1,
        to: x.end + 1,
    }
}

// The line that a record gives to the old side.
#[tactic(auto, unfolding(crate::specs::Records::old_span))]
pub fn old_span(x: Extent) -> Option<Span>
    requires { InOrder x }
    ensures { result ≡ old_span x.mark x }
{
    match x.mark {
        Mark::Kept | Mark::Changed | Mark::Deleted => Some(first_line(x)),
        Mark::Inserted => None,
    }
}

// The line that a record gives to the new side.
#[tactic(auto, unfolding(crate::specs::Records::new_span))]
pub fn new_span(x: Extent) -> Option<Span>
    requires { InOrder x }
    ensures { result ≡ new_span x.mark x }
{
    match x.mark {
        Mark::Kept | Mark::Inserted => Some(first_line(x)),
        Mark::Changed => Some(last_line(x)),
        Mark::Deleted => None,
    }
}

// The line that a record gives to a view.
#[tactic(auto, unfolding(crate::specs::Records::view_span))]
pub fn span_of(view: View, x: Extent) -> Option<Span>
    requires { InOrder x }
    ensures { result ≡ view_span view x }
{
    match view {
        View::OldSide => old_span(x),
        View::NewSide | View::Listing => new_span(x),
    }
}
