// The commands that read, where globals stand (document 02, wish 2): each reads first, through the globals, and then does what it does where none stands.
ghost use Rattle.std.specs.Prelude.{[], ◌∷◌};
ghost use Rattle.definitions.specs.Editor.{strike};
ghost use Rattle.definitions.specs.Edit.{Op};
ghost use Rattle.editor.specs.Records.{LineIn};
ghost use Rattle.editor.specs.Shows.{target_numbered};
ghost use Rattle.editor.specs.Current.{ShownOf};
ghost use Rattle.editor.specs.Edited.{Does};
ghost use Rattle.reading.specs.Carrying.{SomeStand, PerformsBy, CompletesBy};
ghost use Rattle.inserts.specs.Lines.{Insertable};
ghost use Rattle.spans.specs.Spans.{through_of, change_here};
ghost use Rattle.commands.specs.Performing.{ReplacesHere, ReplacesSpan, InsertsAt, JoinsAt};

use editor::{Editor, Stop};
use spans::ahead::{go_ahead, go_to, read_ahead, read_span};

// N
pub fn next_line(script: &[u8], w: &[u32], ed: &mut Editor<'_>) -> Result<(), Stop>
    requires { SomeStand script.now w.now }
    ensures { Does (λ j st. PerformsBy script.now w.now j st Op.next_line) ed.old ed.new result }
{
    if ed.st.back >= ed.journal.len() {
        return Err(Stop::AtEof);
    }
    go_ahead(script, w, ed)
}

// M
pub fn move_to(script: &[u8], w: &[u32], ed: &mut Editor<'_>, target: usize) -> Result<(), Stop>
    requires { SomeStand script.now w.now }
    ensures { Does (λ j st. PerformsBy script.now w.now j st (Op.move (target_numbered target))) ed.old ed.new result }
{
    go_to(script, w, ed, target)
}

// D from the current line on.
fn delete_here(script: &[u8], w: &[u32], ed: &mut Editor<'_>, through: usize) -> Result<(), Stop>
    requires { SomeStand script.now w.now }
    ensures { Does (λ j st. CompletesBy script.now w.now j st (change_here (λ n. strike n ∷ []) (through_of through))) ed.old ed.new result }
{
    read_span(script, w, ed, through)?;
    spans::deleting::delete_here(ed, through)
}

// D
pub fn delete_span(
    script: &[u8],
    w: &[u32],
    ed: &mut Editor<'_>,
    from: usize,
    through: usize,
) -> Result<(), Stop>
    requires { SomeStand script.now w.now }
    ensures { Does (λ j st. PerformsBy script.now w.now j st (Op.delete (target_numbered from) (through_of through))) ed.old ed.new result }
{
    go_to(script, w, ed, from)?;
    delete_here(script, w, ed, through)
}

// R from the current line on.
fn replace_here(
    script: &[u8],
    w: &[u32],
    ed: &mut Editor<'_>,
    through: usize,
    start: usize,
    end: usize,
) -> Result<(), Stop>
    requires { SomeStand script.now w.now × Insertable script.now start end }
    ensures { Does (λ j st. ReplacesHere script.now w.now start end j st through) ed.old ed.new result }
{
    read_span(script, w, ed, through)?;
    replacing::replace_here(ed, through, script, start, end)
}

// R
pub fn replace_span(
    script: &[u8],
    w: &[u32],
    ed: &mut Editor<'_>,
    from: usize,
    through: usize,
    start: usize,
    end: usize,
) -> Result<(), Stop>
    requires { SomeStand script.now w.now × Insertable script.now start end }
    ensures { Does (λ j st. ReplacesSpan script.now w.now start end j st from through) ed.old ed.new result }
{
    go_to(script, w, ed, from)?;
    replace_here(script, w, ed, through, start, end)
}

// I with a line to move to or none.
pub fn insert_at(
    script: &[u8],
    w: &[u32],
    ed: &mut Editor<'_>,
    spot: usize,
    start: usize,
    end: usize,
) -> Result<(), Stop>
    requires { SomeStand script.now w.now × Insertable script.now start end }
    ensures { Does (λ j st. InsertsAt script.now w.now start end j st spot) ed.old ed.new result }
{
    if spot == 0 {
        return inserts::insert_lines(ed, script, start, end);
    }
    go_to(script, w, ed, spot - 1)?;
    inserts::insert_lines(ed, script, start, end)
}

// CL: the string is the n bytes of the script from `from` on.
pub fn join(
    script: &[u8],
    table: &[u8],
    w: &[u32],
    ed: &mut Editor<'_>,
    from: usize,
    n: usize,
) -> Result<(), Stop>
    requires { SomeStand script.now w.now × ShownOf table.now ed.old.journal.now ed.old.st × LineIn script.now from n }
    ensures { Does (λ j st. JoinsAt script.now table.now w.now j st from n) ed.old ed.new result }
{
    if ed.st.back >= ed.journal.len() {
        return Err(Stop::AtEof);
    }
    read_ahead(script, w, ed)?;
    joins::join(table, ed, script, from, n)
}
