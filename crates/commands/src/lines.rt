// The commands with lines, or a string: M, D, IS, CL; R, I.
ghost use Rattle.std.specs.Prelude.{◌≡◌};
ghost use Rattle.items.specs.Kinds.{pair_shape, four_shape, shape_of, word_set_kind};
ghost use Rattle.items.specs.Words.{kind_at};
ghost use Rattle.editor.specs.Current.{IsReady};
ghost use Rattle.editor.specs.Edited.{Does};
ghost use Rattle.reading.specs.Carrying.{SomeStand};
ghost use Rattle.commands.specs.Performing.{SomeCommand, PerformsAt, PerformsLines};

use editor::{Editor, Stop};
use globals::none_stands;
use inserts::insert_at;
use items::arguments::{span_from, span_through, string_length, string_start};
use items::heads::number_of;
use items::kinds::{DELETE, JOIN, MOVE, REPLACE};
use replacing::replace_span;
use spans::deleting::delete_span;

// M, D, IS, CL.
pub fn of_two_words(
    script: &[u8],
    table: &[u8],
    w: &[u32],
    k: usize,
    kind: u32,
    ed: &mut Editor<'_>,
) -> Result<(), Stop>
    requires { SomeCommand script.now w.now k × SomeStand script.now w.now × IsReady table.now ed.old.journal.now ed.old.st × (kind ≡ kind_at w.now k) × (shape_of kind ≡ pair_shape) }
    ensures { Does (λ j st. PerformsAt script.now table.now w.now k j st) ed.old ed.new result }
{
    let word = w[k + 1];
    if kind == MOVE {
        if none_stands(w) {
            return ed.move_to(word as usize);
        }
        return crate::passing::move_to(script, w, ed, word as usize);
    }
    if kind == DELETE {
        let through = span_through(number_of(w, k), word);
        if none_stands(w) {
            return delete_span(ed, span_from(word), through);
        }
        return crate::passing::delete_span(script, w, ed, span_from(word), through);
    }
    let from = string_start(word);
    let n = string_length(word);
    if kind == JOIN {
        if none_stands(w) {
            return joins::join(table, ed, script, from, n);
        }
        return crate::passing::join(script, table, w, ed, from, n);
    }
    ed.insert_line(script, from, n)
}

// R, I.
pub fn of_four_words(
    script: &[u8],
    w: &[u32],
    k: usize,
    kind: u32,
    ed: &mut Editor<'_>,
) -> Result<(), Stop>
    requires { SomeCommand script.now w.now k × SomeStand script.now w.now × (kind ≡ kind_at w.now k) × (shape_of kind ≡ four_shape) × (kind ≡ word_set_kind → ⊥) }
    ensures { Does (λ j st. PerformsLines script.now w.now k j st) ed.old ed.new result }
{
    let word = w[k + 1];
    let start = w[k + 2] as usize;
    let end = w[k + 3] as usize;
    if kind == REPLACE {
        let through = span_through(number_of(w, k), word);
        if none_stands(w) {
            return replace_span(ed, span_from(word), through, script, start, end);
        }
        return crate::passing::replace_span(script, w, ed, span_from(word), through, start, end);
    }
    if none_stands(w) {
        return insert_at(ed, word as usize, script, start, end);
    }
    crate::passing::insert_at(script, w, ed, word as usize, start, end)
}
