// Whether the middle tables of two journals agree, and whether what both leave fits into a destination.
ghost use Rattle.std.specs.Prelude.{◌≡◌, List, ◌+◌, ◌-◌, ◌≤◌, length};
ghost use Rattle.definitions.specs.Journal.{Record, record_length, journal_length, change};
ghost use Rattle.journal.specs.Records.{Left};
ghost use Rattle.middle.specs.Leaving.{Within, Stand, text_in, leaves};
ghost use Rattle.seasons.specs.Joined.{found};

use journal::Refusal;
use journal::records::Span;
use middle::{Places, Texts};

// A text's length with a mark.
fn marked_length(t: Span) -> usize
    requires { (t.from ≤ t.to) × (t.to ≤ t.from + 256) }
    ensures { result ≡ 2 + (t.to - t.from) }
{
    2 + (t.to - t.from)
}

// The length of the record that a line with both texts leaves.
fn both_length(j: &[u8], old: Span, k: &[u8], new: Span) -> usize
    requires { Within j.now old × Within k.now new }
    ensures { result ≡ record_length (change (text_in j.now old) (text_in k.now new)) }
{
    let first = marked_length(old);
    if middle::same_text(j, old, k, new) {
        return first;
    }
    first + (new.to - new.from)
}

// The length of what a line leaves.
fn length_of(j: &[u8], k: &[u8], line: Texts) -> usize
    requires { Stand j.now k.now line }
    ensures { result ≡ journal_length (leaves j.now k.now line) }
{
    match (line.old, line.new) {
        (Some(old), Some(new)) => both_length(j, old, k, new),
        (Some(old), None) => marked_length(old),
        (None, Some(new)) => marked_length(new),
        (None, None) => 0,
    }
}

// What both journals leave has this many bytes, if their middle tables agree and it fits into `size` bytes. Goes through both once. The room that is left is counted
// down, so that no sum can pass the largest number; where it is too small, the walk goes on, since middle tables that differ are looked for first.
pub fn measure(j: &[u8], k: &[u8], size: usize) -> Result<usize, Refusal>
    requires { (rs : List Record) × (ss : List Record) × Left j.now 0 rs × Left k.now 0 ss }
    ensures { (rs : List Record) (ss : List Record) → Left j.now 0 rs → Left k.now 0 ss → result ≡ found rs ss size }
{
    let mut p = Places {
        first: 0,
        second: 0,
    };
    let mut left = Some(size);
    while let Some(next) = middle::next_line(j, k, p)? {
        let need = length_of(j, k, next.line);
        if let Some(room) = left {
            left = room.checked_sub(need);
        }
        p = next.after;
    }
    match left {
        Some(room) => Ok(size - room),
        None => Err(Refusal::Short),
    }
}
