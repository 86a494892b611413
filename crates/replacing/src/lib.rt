// R: lines of the script in the place of lines of the journal.
#![tactic(auto)]

pub mod room;

ghost use Rattle.definitions.specs.Bytes.{lines_of};
ghost use Rattle.definitions.specs.Given.{no_globals};
ghost use Rattle.definitions.specs.Edit.{Op};
ghost use Rattle.items.specs.Words.{part_of};
ghost use Rattle.editor.specs.Shows.{Performs, Completes, target_numbered};
ghost use Rattle.editor.specs.Edited.{Does};
ghost use Rattle.inserts.specs.Lines.{Insertable};
ghost use Rattle.spans.specs.Spans.{through_of, change_here, Spanned, Until};
ghost use Rattle.replacing.specs.Freed.{replacing, Replaces, Frees};

use editor::{Editor, Stop};

// How many bytes it frees to delete the lines up to the place `to`.
fn freed_to(ed: &Editor<'_>, to: usize) -> usize
    requires { Until ed.now.journal.now ed.now.st to }
    ensures { Frees to ed.now.journal.now ed.now.st result }
{
    room::freed_to(ed.journal, ed.st, to)
}

// R of the records up to the place `to`. The room is tested for the whole command before a record changes.
// A stop has read the next live line all the same.
fn replace_to(
    ed: &mut Editor<'_>,
    to: usize,
    s: &[u8],
    start: usize,
    end: usize,
) -> Result<(), Stop>
    requires { Spanned ed.old.journal.now ed.old.st to × Insertable s.now start end }
    ensures { Does (λ j st. Replaces to (lines_of (part_of s.now start end)) j st) ed.old ed.new result }
{
    let room = inserts::lines_room(s, start, end);
    let gap = ed.st.back - ed.st.front;
    if gap < room {
        let freed = freed_to(ed, to);
        if gap + freed < room {
            let next = spans::finding::read_after(ed, to);
            ed.st = next.st;
            return Err(Stop::JournalFull);
        }
    }
    let j = &mut *ed.journal;
    let l = spans::striking::strike_span(j, ed.st, to);
    ed.st = inserts::put_lines(j, l, s, start, end);
    Ok(())
}

// R from the current line on.
pub fn replace_here(
    ed: &mut Editor<'_>,
    through: usize,
    s: &[u8],
    start: usize,
    end: usize,
) -> Result<(), Stop>
    requires { Insertable s.now start end }
    ensures { Does (λ j st. Completes no_globals j st (change_here (replacing (lines_of (part_of s.now start end))) (through_of through))) ed.old ed.new result }
{
    let to = spans::finding::span_end(ed, through)?;
    replace_to(ed, to, s, start, end)
}

// R: `from` and `through` are as in D; the lines are those of s from `start` up to `end`.
pub fn replace_span(
    ed: &mut Editor<'_>,
    from: usize,
    through: usize,
    s: &[u8],
    start: usize,
    end: usize,
) -> Result<(), Stop>
    requires { Insertable s.now start end }
    ensures { Does (λ j st. Performs no_globals j st (Op.replace (target_numbered from) (through_of through) (lines_of (part_of s.now start end)))) ed.old ed.new result }
{
    ed.go_to(from)?;
    replace_here(ed, through, s, start, end)
}
