// The commands of one word.
ghost use Rattle.items.specs.Simple.{byte_op, line_op};
ghost use Rattle.editor.specs.Current.{ShownOf, PerformsOf};
ghost use Rattle.editor.specs.Edited.{Does};
ghost use Rattle.reading.specs.Carrying.{SomeStand};
ghost use Rattle.commands.specs.Performing.{PerformsWith};

use editor::{Editor, Stop};
use globals::none_stands;
use items::kinds::{COPY, CUT_BYTE, LEFT, LOWER, NEXT, POINT_START, PREVIOUS, QUIT, RIGHT};

// W, N, P, IC; and those on bytes.
pub fn on_lines(
    script: &[u8],
    table: &[u8],
    w: &[u32],
    kind: u32,
    ed: &mut Editor<'_>,
) -> Result<(), Stop>
    requires { SomeStand script.now w.now × ShownOf table.now ed.old.journal.now ed.old.st }
    ensures { Does (λ j st. PerformsWith script.now table.now w.now j st (line_op kind)) ed.old ed.new result }
{
    match kind {
        QUIT => Err(Stop::Quit),
        NEXT => {
            if none_stands(w) {
                return ed.next_line();
            }
            crate::passing::next_line(script, w, ed)
        }
        PREVIOUS => ed.previous_line(),
        COPY => ed.copy_line(table),
        _ => on_bytes(kind, table, ed),
    }
}

// PR, >, <, #, $, %.
fn on_bytes(kind: u32, table: &[u8], ed: &mut Editor<'_>) -> Result<(), Stop>
    requires { ShownOf table.now ed.old.journal.now ed.old.st }
    ensures { Does (λ j st. PerformsOf table.now j st (byte_op kind)) ed.old ed.new result }
{
    match kind {
        POINT_START => changes::point_start(ed),
        RIGHT => changes::right(table, ed),
        LEFT => changes::left(ed),
        CUT_BYTE => changes::cut_byte(table, ed),
        LOWER => changes::recase(table, ed, false),
        _ => changes::recase(table, ed, true),
    }
}
