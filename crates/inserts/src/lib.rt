// Lines of the script, inserted before the current line: I, and the lines of R.
#![tactic(auto)]

ghost use Rattle.std.specs.Prelude.{◌≡◌, List, ◌+◌, ◌≤◌, length};
ghost use Rattle.std.proofs.Math.Option.{none};
ghost use Rattle.definitions.specs.Bytes.{lines_of};
ghost use Rattle.definitions.specs.Journal.{Record};
ghost use Rattle.definitions.specs.Given.{Carried, no_globals};
ghost use Rattle.definitions.specs.Edit.{Op};
ghost use Rattle.items.specs.Words.{part_of};
ghost use Rattle.editor.specs.Shows.{Holds, Performs, Puts};
ghost use Rattle.editor.specs.Edited.{Does};
ghost use Rattle.inserts.specs.Lines.{feed_place, Insertable, room_of, spot_of};

use editor::{Editor, State, Stop};

// The end of the line that starts at `at`: the place of its line feed, or `end`.
fn line_end(s: &[u8], at: usize, end: usize) -> usize
    requires { (at ≤ end) × (end ≤ length s.now) }
    ensures { (result ≡ at + feed_place (part_of s.now at end)) × (result ≤ end) }
{
    let mut i = at;
    while i < end {
        if s[i] == 10 {
            return i;
        }
        i += 1;
    }
    i
}

// How many bytes of the journal the lines from `start` up to `end` take.
pub fn lines_room(s: &[u8], start: usize, end: usize) -> usize
    requires { Insertable s.now start end }
    ensures { result ≡ room_of s.now start end }
{
    let mut room: usize = 0;
    let mut at = start;
    while at < end {
        let e = line_end(s, at, end);
        room += e - at + 3;
        at = e + 1;
    }
    room
}

// The lines from `start` up to `end` become inserted records before the current one. There is room for them. R puts them where no text is shown yet, so this
// takes the buffer and its numbers, and no `Editor`.
pub fn put_lines(j: &mut [u8], st: State, s: &[u8], start: usize, end: usize) -> State
    requires { ((b : List Record) × (a : List Record) × Holds j.old st b a) × Insertable s.now start end × (st.front + room_of s.now start end ≤ st.back) }
    ensures { Puts (lines_of (part_of s.now start end)) j.old st j.new result }
{
    let mut r = st;
    let mut at = start;
    while at < end {
        let e = line_end(s, at, end);
        let n = e - at;
        r = editor::edits::put_line(j, r, s, at, n);
        at = e + 1;
    }
    r
}

// I: the lines are inserted before the current one. The room is tested for all of them at once.
pub fn insert_lines(ed: &mut Editor<'_>, s: &[u8], start: usize, end: usize) -> Result<(), Stop>
    requires { Insertable s.now start end }
    ensures { Does (λ j st k r. (c : Carried) → Performs c j st (Op.insert none (lines_of (part_of s.now start end))) k r) ed.old ed.new result }
{
    let room = ed.st.back - ed.st.front;
    if room < lines_room(s, start, end) {
        return Err(Stop::JournalFull);
    }
    let j = &mut *ed.journal;
    ed.st = put_lines(j, ed.st, s, start, end);
    Ok(())
}

// I with a line to move to or none, by its number: 0 is none, and any other number is that of the line in M, plus 1.
pub fn insert_at(
    ed: &mut Editor<'_>,
    spot: usize,
    s: &[u8],
    start: usize,
    end: usize,
) -> Result<(), Stop>
    requires { Insertable s.now start end }
    ensures { Does (λ j st. Performs no_globals j st (Op.insert (spot_of spot) (lines_of (part_of s.now start end)))) ed.old ed.new result }
{
    if spot == 0 {
        return insert_lines(ed, s, start, end);
    }
    ed.go_to(spot - 1)?;
    insert_lines(ed, s, start, end)
}
