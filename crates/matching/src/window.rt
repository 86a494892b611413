// The text T of the qualifiers: the part of the line that is searched.
ghost use Rattle.std.specs.Prelude.{◌≡◌, ◌≤◌, length};
ghost use Rattle.definitions.specs.Matching.{window, after_spaces};
ghost use Rattle.matching.specs.Quals.{columns_of, TextIn};

use super::{Quals, Span};
use scans::{Kind, past};

// The window, cut to the columns where some are given.
fn window_of(line: &[u8], p: usize, from: usize, to: usize) -> Span
    requires { p ≤ length line.now }
    ensures { TextIn line.now result (window (columns_of from to) p line.now) }
{
    if from == 0 {
        return Span {
            start: p,
            end: line.len(),
        };
    }
    let start = p.max(from - 1).min(line.len());
    let end = start.max(to.min(line.len()));
    Span { start, end }
}

// The text T of the qualifiers.
pub fn text_of(line: &[u8], p: usize, q: Quals) -> Span
    requires { p ≤ length line.now }
    ensures { TextIn line.now result (after_spaces q.skip line.now (window (columns_of q.from q.to) p line.now)) }
{
    let t = window_of(line, p, q.from, q.to);
    if !q.skip {
        return t;
    }
    let start = t.start;
    let end = t.end;
    let first = past(line, start, end, Kind::Only(b' '));
    Span { start: first, end }
}
