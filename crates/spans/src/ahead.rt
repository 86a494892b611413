// What a command reads, through the standing globals (document 02, wish 2), before it does what it does where none stands.
ghost use Rattle.std.specs.Prelude.{◌<◌, length};
ghost use Rattle.definitions.specs.Edit.{read_up_to, go_ahead, go_to, read_past};
ghost use Rattle.editor.specs.Shows.{target_numbered};
ghost use Rattle.editor.specs.Edited.{Does};
ghost use Rattle.reading.specs.Carrying.{DoesPartBy, SomeStand};
ghost use Rattle.spans.specs.Spans.{through_of, span_here, read_here, Spanned, ReadsAfter};

use editor::{Editor, Stop};

// The next live line after the current one is read, or EOF: what N, CL, F and DF read. Nothing moves.
pub fn read_ahead(script: &[u8], w: &[u32], ed: &mut Editor<'_>) -> Result<(), Stop>
    requires { SomeStand script.now w.now × (ed.old.st.back < length ed.old.journal.now) }
    ensures { Does (λ j st. DoesPartBy script.now w.now j st (read_past 1)) ed.old ed.new result }
{
    let j = &mut *ed.journal;
    let next = crate::finding::read_next(j, ed.st);
    reading::read_to(script, w, ed, next.st.furthest)
}

// The next live line is read and becomes current, or EOF. A line is current.
pub fn go_ahead(script: &[u8], w: &[u32], ed: &mut Editor<'_>) -> Result<(), Stop>
    requires { SomeStand script.now w.now × (ed.old.st.back < length ed.old.journal.now) }
    ensures { Does (λ j st. DoesPartBy script.now w.now j st go_ahead) ed.old ed.new result }
{
    read_ahead(script, w, ed)?;
    ed.go_ahead();
    Ok(())
}

// What M names is read: 0 is the current line, 65,536 is EOF, and any other number is that source line.
fn read_target(script: &[u8], w: &[u32], ed: &mut Editor<'_>, target: usize) -> Result<(), Stop>
    requires { SomeStand script.now w.now }
    ensures { Does (λ j st. DoesPartBy script.now w.now j st (read_up_to (target_numbered target))) ed.old ed.new result }
{
    if target == 0 {
        return Ok(());
    }
    if target == 65536 {
        let last = ed.st.lines + 1;
        return reading::read_to(script, w, ed, last);
    }
    reading::read_to(script, w, ed, target)
}

// To what M names, which is read.
pub fn go_to(script: &[u8], w: &[u32], ed: &mut Editor<'_>, target: usize) -> Result<(), Stop>
    requires { SomeStand script.now w.now }
    ensures { Does (λ j st. DoesPartBy script.now w.now j st (go_to (target_numbered target))) ed.old ed.new result }
{
    read_target(script, w, ed, target)?;
    ed.go_to(target)
}

// The lines that D and R take from the current line on are read; 20 and 28 are tested first.
fn read_through(script: &[u8], w: &[u32], ed: &mut Editor<'_>, through: usize) -> Result<(), Stop>
    requires { SomeStand script.now w.now }
    ensures { Does (λ j st. DoesPartBy script.now w.now j st (read_here (through_of through))) ed.old ed.new result }
{
    if ed.st.back >= ed.journal.len() {
        return Err(Stop::AtEof);
    }
    if through == 0 {
        return Ok(());
    }
    if through == 65536 {
        let last = ed.st.lines + 1;
        return reading::read_to(script, w, ed, last);
    }
    if through <= ed.st.past {
        return Err(Stop::LineBefore);
    }
    reading::read_to(script, w, ed, through)
}

// The next live line after the records up to the place `end` is read, or EOF.
fn read_after(script: &[u8], w: &[u32], ed: &mut Editor<'_>, end: usize) -> Result<(), Stop>
    requires { SomeStand script.now w.now × Spanned ed.old.journal.now ed.old.st end }
    ensures { Does (λ j st. ReadsAfter script.now w.now end j st) ed.old ed.new result }
{
    let next = crate::finding::read_after(ed, end);
    let far = next.st.furthest;
    reading::read_to(script, w, ed, far)
}

// The lines that D and R take from the current line on are read, and the next live line after them.
pub fn read_span(script: &[u8], w: &[u32], ed: &mut Editor<'_>, through: usize) -> Result<(), Stop>
    requires { SomeStand script.now w.now }
    ensures { Does (λ j st. DoesPartBy script.now w.now j st (span_here (through_of through))) ed.old ed.new result }
{
    read_through(script, w, ed, through)?;
    let end = crate::finding::span_end(ed, through)?;
    read_after(script, w, ed, end)
}
