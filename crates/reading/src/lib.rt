// Source lines are read through the standing globals.
#![tactic(auto)]

pub mod lines;

ghost use Rattle.std.specs.Prelude.{◌≡◌};
ghost use Rattle.definitions.specs.Editor.{Target};
ghost use Rattle.definitions.specs.Edit.{read_up_to};
ghost use Rattle.editor.specs.Edited.{Does};
ghost use Rattle.reading.specs.Carrying.{DoesPartBy, SomeStand};
ghost use Rattle.reading.specs.Lines.{BackAsks, ComesBack};

use editor::{Editor, State, Stop, Stopped};

// The gap goes back to where it stood with the numbers `there`, in one move. Source line `far` is the furthest that is read.
fn come_back(j: &mut [u8], st: State, there: State, far: usize) -> State
    requires { BackAsks there j.old st }
    ensures { ComesBack j.old st there j.new result × (result.furthest ≡ far) × (result.p ≡ there.p) }
{
    let f = st.front;
    let b = st.back;
    let to = there.front;
    gap::shift_up(j, to, f, b);
    State {
        front: to,
        back: b - (f - to),
        past: there.past,
        furthest: far,
        lines: st.lines,
        source: there.source,
        size: st.size,
        p: there.p,
    }
}

// Source line a is read through the standing globals, and the unread lines before it; EOF where there is no such line. The current line stays current.
// A line on which the globals stop counts as read, and keeps its text.
pub fn read_to(script: &[u8], w: &[u32], ed: &mut Editor<'_>, a: usize) -> Result<(), Stop>
    requires { SomeStand script.now w.now }
    ensures { Does (λ j st. DoesPartBy script.now w.now j st (read_up_to (Target.line a))) ed.old ed.new result }
{
    let st = ed.st;
    if globals::none_stands(w) {
        ed.st = editor::walk::read_to(st, a);
        return Ok(());
    }
    let to = text::copies::lesser(a, st.lines + 1);
    if to <= st.furthest {
        return Ok(());
    }
    let j = &mut *ed.journal;
    let first = editor::walk::to_source(j, st, st.furthest);
    let last = text::copies::lesser(a, st.lines);
    match lines::read_lines(script, w, j, first, last) {
        Ok(s) => {
            ed.st = come_back(j, s, st, to);
            Ok(())
        }
        Err(Stopped { stop, st: s }) => {
            ed.st = come_back(j, s, st, s.past);
            Err(stop)
        }
    }
}
