// Writes what a view shows of a journal.
ghost use Rattle.std.specs.Prelude.{◌≡◌, List, ◌+◌, ◌<◌, ◌≤◌, length, Some};
ghost use Rattle.std.proofs.Math.Option.{some};
ghost use Rattle.definitions.specs.Journal.{Record, records_of};
ghost use Rattle.definitions.specs.Listing.{mark_if};
ghost use Rattle.text.specs.Buffer.{laid};
ghost use Rattle.journal.specs.Records.{record_at, record_in};
ghost use Rattle.journal.specs.Views.{Puts, column_of, original_head, head_of, head_by, gone_by, piece, out_of};

use crate::records::{Extent, Mark, Records, View};
use crate::{marks, records};

// What has gone by: source lines, and whether the last of them is deleted.
#[derive(Clone, Copy)]
pub struct Gone {
    pub lines: usize,
    pub gap: bool,
}

// A digit of a number in its column, or a space before the number.
#[tactic(auto, unfolding(crate::specs::Views::column_of))]
fn column(n: usize, unit: usize) -> u8
    requires { 0 < unit }
    ensures { result ≡ column_of n unit }
{
    if n < unit {
        32
    } else {
        (48 + n / unit % 10) as u8
    }
}

// The byte `b`, or a space.
#[tactic(auto, unfolding(definitions::specs::Listing::mark_if))]
fn mark_if(on: bool, b: u8) -> u8
    ensures { result ≡ mark_if on b }
{
    if on { b } else { 32 }
}

// Before an original line: its number in five columns, `-` after a deleted line, `+` if it is changed.
#[tactic(auto, unfolding(crate::specs::Views::original_head))]
fn original(n: usize, gap: bool, new: bool) -> [u8; 7]
    ensures { result ≡ original_head n gap new }
{
    [
        column(n, 10000),
        column(n, 1000),
        column(n, 100),
        column(n, 10),
        (48 + n % 10) as u8,
        mark_if(gap, b'-'),
        mark_if(new, b'+'),
    ]
}

// The seven bytes before a line of the listing.
#[tactic(auto, unfolding(crate::specs::Views::head_of))]
fn head(mark: Mark, gone: Gone) -> [u8; 7]
    requires { gone.lines ≤ 65535 }
    ensures { result ≡ head_of mark gone }
{
    match mark {
        Mark::Kept | Mark::Deleted => original(gone.lines + 1, gone.gap, false),
        Mark::Changed => original(gone.lines + 1, gone.gap, true),
        Mark::Inserted => *b" ****  ",
    }
}

// What has gone by after a record.
#[tactic(auto, unfolding(crate::specs::Views::gone_by))]
fn gone_by(gone: Gone, mark: Mark) -> Gone
    requires { gone.lines ≤ 65535 }
    ensures { result ≡ gone_by gone mark }
{
    match mark {
        Mark::Kept | Mark::Changed => Gone {
            lines: gone.lines + 1,
            gap: false,
        },
        Mark::Deleted => Gone {
            lines: gone.lines + 1,
            gap: true,
        },
        Mark::Inserted => gone,
    }
}

// Writes what a view has before a line at `out`, and answers where the line goes.
#[tactic(auto, unfolding(crate::specs::Views::head_by))]
fn put_head(view: View, mark: Mark, gone: Gone, dest: &mut [u8], out: usize) -> usize
    requires { (gone.lines ≤ 65535) × (out + length (head_by view mark gone) ≤ length dest.old) }
    ensures { Puts (head_by view mark gone) dest.old out dest.new result }
{
    match view {
        View::OldSide | View::NewSide => out,
        View::Listing => marks::put_line(&head(mark, gone), dest, out),
    }
}

// Writes what a view shows of one record at `out`, and answers where the next goes.
fn put(view: View, j: &[u8], x: Extent, gone: Gone, dest: &mut [u8], out: usize) -> usize
    requires { (record_at j.now x.at ≡ Some x) × (gone.lines ≤ 65535) × (out + length (piece view gone (record_in j.now x)) ≤ length dest.old) }
    ensures { Puts (piece view gone (record_in j.now x)) dest.old out dest.new result }
{
    let Some(line) = records::span_of(view, x) else {
        return out;
    };
    let next = put_head(view, x.mark, gone, dest, out);
    marks::put_line(&j[line.from..line.to], dest, next)
}

// Writes what a view shows of a journal, from the destination's start.
pub fn write(view: View, j: &[u8], dest: &mut [u8])
    requires { (rs : List Record) × (records_of j.now ≡ some rs) × (length (out_of view rs) ≤ length dest.old) }
    ensures { (rs : List Record) → records_of j.now ≡ some rs → dest.new ≡ laid dest.old 0 (out_of view rs) }
{
    let mut gone = Gone {
        lines: 0,
        gap: false,
    };
    let mut out: usize = 0;
    for x in Records::from_start(j) {
        out = put(view, j, x, gone, dest, out);
        gone = gone_by(gone, x.mark);
    }
}
