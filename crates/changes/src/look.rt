// What stands in the current line. Until its first change the line's text is read from the table.
ghost use Rattle.std.specs.Prelude.{◌≡◌, ◌+◌, ◌≤◌, length, take};
ghost use Rattle.definitions.specs.Edit.{splice};
ghost use Rattle.text.specs.Lines.{part};
ghost use Rattle.wordset.specs.Sets.{in_set};
ghost use Rattle.matching.specs.Quals.{Formed};
ghost use Rattle.editor.specs.Current.{ShownOf, IsReady};
ghost use Rattle.changes.specs.Current.{written, sought, HasLine, Sights, Finds, Splices};

use editor::{Editor, State, Stop};
use matching::Quals;

// The byte at p of the current line. What only looks at the current line takes the buffer and its numbers, so that a buffer to look at is enough.
pub fn byte_here<'a>(table: &'a [u8], j: &'a [u8], st: State) -> Result<u8, Stop>
    requires { ShownOf table.now j.now st }
    ensures { Sights table.now j.now st result }
{
    let at = st.back;
    if at >= j.len() {
        return Err(Stop::AtEof);
    }
    let line = editor::current::current_line(table, j, st);
    let p = st.p;
    if p >= line.len() {
        return Err(Stop::PointAtEnd);
    }
    Ok(line[p])
}

// The place and the width of the match in the current line's window of the string that the script has from `from` to `to`, where the bytes of the set
// count for W.
pub fn match_here(
    set: &[u32],
    table: &[u8],
    ed: &Editor<'_>,
    q: Quals,
    script: &[u8],
    from: usize,
    to: usize,
) -> Result<(usize, usize), Stop>
    requires { (3 ≤ length set.now) × IsReady table.now ed.now.journal.now ed.now.st × (from ≤ to) × (to ≤ length script.now) × (to ≤ from + 255) × Formed q (part from to script.now) }
    ensures { Finds (in_set set.now 0) table.now ed.now.journal.now ed.now.st (sought q script.now from to) result }
{
    if ed.st.back >= ed.journal.len() {
        return Err(Stop::AtEof);
    }
    let line = ed.current_line(table);
    let found = matching::find(set, line, ed.st.p, q, &script[from..to]);
    match found {
        Some(found) => Ok((found.at, found.width)),
        None => Err(Stop::NoMatch),
    }
}

// The bytes of `old` with the first m of `new` for the n from place i on.
fn splice_line(line: &mut [u8], old: &[u8], i: usize, n: usize, new: &[u8], m: usize)
    requires { (i + n ≤ length old.now) × (m ≤ length new.now) × (length old.now + m ≤ length line.old + n) }
    ensures { line.new ≡ written line.old (splice old.now i n (take m new.now)) }
{
    text::copies::copy_in(line, 0, old, 0, i);
    text::copies::copy_in(line, i, new, 0, m);
    let rest = i + n;
    text::copies::copy_in(line, i + m, old, rest, old.len() - rest);
}

// The current line with the first m bytes of `new` for the n from place i on: its length; and its bytes, where a line can be so long.
pub fn splice_text<'a>(
    line: &mut [u8],
    table: &'a [u8],
    j: &'a [u8],
    st: State,
    i: usize,
    n: usize,
    new: &[u8],
    m: usize,
) -> usize
    requires { HasLine table.now j.now st (i + n) × (255 ≤ length line.old) × (m ≤ length new.now) × (m ≤ 16384) }
    ensures { Splices table.now j.now st i n (take m new.now) line.old line.new result }
{
    let text = editor::current::current_line(table, j, st);
    let len = text.len() - n + m;
    if 255 < len {
        return len;
    }
    splice_line(line, text, i, n, new, m);
    len
}
