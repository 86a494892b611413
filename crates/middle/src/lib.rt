// Two journals gone through by the lines of the middle table: the first journal's new side, the second's old side.
#![tactic(auto)]

ghost use Rattle.std.specs.Prelude.{◌≡◌, ◌-◌, ◌<◌, ◌≤◌, length, Some};
ghost use Rattle.definitions.specs.Bytes.{eq_line};
ghost use Rattle.text.specs.Lines.{part};
ghost use Rattle.journal.specs.Records.{record_at, InOrder, old_span, new_span};
ghost use Rattle.middle.specs.Middle.{left_next, came_next, at_end, same_spans, met_by, at_middle_line, next_at};

use journal::records::{Extent, Mark, Span};
use journal::{Refusal, records};

// Places in both journals.
#[derive(Clone, Copy)]
pub struct Places {
    pub first: usize,
    pub second: usize,
}

// The texts that a line has: an old one stands in the first journal, a new one in the second. With neither it is inserted in the first and deleted in the second.
#[derive(Clone, Copy)]
pub struct Texts {
    pub old: Option<Span>,
    pub new: Option<Span>,
}

// A line that comes next, and the places after it.
#[derive(Clone, Copy)]
pub struct Next {
    pub line: Texts,
    pub after: Places,
}

// A line that the first journal deletes.
#[tactic(auto, unfolding(crate::specs::Middle::left_next))]
fn left_next(x: Extent, p: Places) -> Next
    requires { InOrder x }
    ensures { result ≡ left_next x p }
{
    Next {
        line: Texts {
            old: Some(records::first_line(x)),
            new: None,
        },
        after: Places {
            first: x.end + 1,
            second: p.second,
        },
    }
}

// A line that the second journal inserts.
#[tactic(auto, unfolding(crate::specs::Middle::came_next))]
fn came_next(y: Extent, p: Places) -> Next
    requires { InOrder y }
    ensures { result ≡ came_next y p }
{
    Next {
        line: Texts {
            old: None,
            new: Some(records::first_line(y)),
        },
        after: Places {
            first: p.first,
            second: y.end + 1,
        },
    }
}

// The first journal has ended: only inserted lines may be left in the second.
#[tactic(auto, using(crate::proofs::Ways::ordered), unfolding(crate::specs::Middle::at_end, crate::specs::Middle::rest_by))]
fn at_end(k: &[u8], p: Places) -> Result<Option<Next>, Refusal>
    ensures { result ≡ at_end (record_at k.now p.second) p }
{
    let Some(y) = records::record_at(k, p.second) else {
        return Ok(None);
    };
    match y.mark {
        Mark::Kept | Mark::Changed | Mark::Deleted => Err(Refusal::Differ),
        Mark::Inserted => Ok(Some(came_next(y, p))),
    }
}

// Whether the text `s` of one journal is the text `t` of the other.
pub fn same_text(j: &[u8], s: Span, k: &[u8], t: Span) -> bool
    requires { (s.from < s.to) × (s.to ≤ length j.now) × (t.from < t.to) × (t.to ≤ length k.now) }
    ensures { result ≡ eq_line (part s.from (s.to - 1) j.now) (part t.from (t.to - 1) k.now) }
{
    text::same(&j[s.from..s.to - 1], &k[t.from..t.to - 1])
}

// Whether the line that x gives to the first journal's new side is the line that y gives to the second's old side.
fn is_middle(j: &[u8], x: Extent, k: &[u8], y: Extent) -> bool
    requires { (record_at j.now x.at ≡ Some x) × (record_at k.now y.at ≡ Some y) }
    ensures { result ≡ same_spans j.now k.now (new_span x.mark x) (old_span y.mark y) }
{
    let Some(new) = records::new_span(x) else {
        return false;
    };
    let Some(old) = records::old_span(y) else {
        return false;
    };
    same_text(j, new, k, old)
}

// A middle line, by its record in each journal.
fn met_by(j: &[u8], x: Extent, k: &[u8], y: Extent) -> Result<Option<Next>, Refusal>
    requires { (record_at j.now x.at ≡ Some x) × (record_at k.now y.at ≡ Some y) }
    ensures { result ≡ met_by j.now k.now x y }
{
    if !is_middle(j, x, k, y) {
        return Err(Refusal::Differ);
    }
    Ok(Some(Next {
        line: Texts {
            old: records::old_span(x),
            new: records::new_span(y),
        },
        after: Places {
            first: x.end + 1,
            second: y.end + 1,
        },
    }))
}

// The next middle line is that of x, unless the second journal inserts a line before it.
#[tactic(auto, using(crate::proofs::Ways::ordered), unfolding(crate::specs::Middle::at_middle_line, crate::specs::Middle::middle_by))]
fn at_middle(j: &[u8], x: Extent, k: &[u8], p: Places) -> Result<Option<Next>, Refusal>
    requires { record_at j.now x.at ≡ Some x }
    ensures { result ≡ at_middle_line j.now k.now x (record_at k.now p.second) p }
{
    let Some(y) = records::record_at(k, p.second) else {
        return Err(Refusal::Differ);
    };
    match y.mark {
        Mark::Kept | Mark::Changed | Mark::Deleted => met_by(j, x, k, y),
        Mark::Inserted => Ok(Some(came_next(y, p))),
    }
}

// The line that comes next from the places p on; none: both journals end. Refused, the middle tables differ here.
#[tactic(auto, using(crate::proofs::Ways::ordered), unfolding(crate::specs::Middle::next_at, crate::specs::Middle::next_from, crate::specs::Middle::next_by))]
pub fn next_line(j: &[u8], k: &[u8], p: Places) -> Result<Option<Next>, Refusal>
    ensures { result ≡ next_at j.now k.now p }
{
    let Some(x) = records::record_at(j, p.first) else {
        return at_end(k, p);
    };
    match x.mark {
        Mark::Kept | Mark::Changed | Mark::Inserted => at_middle(j, x, k, p),
        Mark::Deleted => Ok(Some(left_next(x, p))),
    }
}
