// The commands with a qualified string: PA, PB, SA, SB; A, B, E, AP, BP, EP.
ghost use Rattle.std.specs.Prelude.{◌≡◌, false};
ghost use Rattle.items.specs.Kinds.{string_shape, change_shape, shape_of, is_global};
ghost use Rattle.items.specs.Words.{kind_at};
ghost use Rattle.editor.specs.Current.{IsReady};
ghost use Rattle.editor.specs.Edited.{Does};
ghost use Rattle.reading.specs.Carrying.{SomeStand};
ghost use Rattle.commands.specs.Performing.{split_by, change_by, pointing_by, SomeCommand, PerformsAt};

use changes::Change;
use editor::{Editor, Stop};
use globals::word_set;
use items::arguments::{string_length, string_start};
use items::kinds::{
    AFTER, AFTER_POINTING, BEFORE, BEFORE_POINTING, EXCHANGE_POINTING, POINT_AFTER, SPLIT_AFTER,
    SPLIT_BEFORE,
};
use matching::search::{end_at, length_at, quals_at, start_at};

// SA and SB, among the commands with one qualified string.
fn is_split(kind: u32) -> bool
    ensures { result ≡ split_by kind }
{
    match kind {
        SPLIT_AFTER => true,
        SPLIT_BEFORE => true,
        _ => false,
    }
}

// PA, PB, SA, SB.
pub fn aims(
    script: &[u8],
    table: &[u8],
    w: &[u32],
    k: usize,
    kind: u32,
    ed: &mut Editor<'_>,
) -> Result<(), Stop>
    requires { SomeCommand script.now w.now k × SomeStand script.now w.now × IsReady table.now ed.old.journal.now ed.old.st × (kind ≡ kind_at w.now k) × (shape_of kind ≡ string_shape) }
    ensures { Does (λ j st. PerformsAt script.now table.now w.now k j st) ed.old ed.new result }
{
    let at = k + 1;
    let q = quals_at(w, at);
    let from = start_at(w, at);
    let to = from + length_at(w, at);
    let set = word_set(w);
    if is_split(kind) {
        return splits::split(set, table, ed, kind == SPLIT_AFTER, q, script, from, to);
    }
    changes::point(set, table, ed, kind == POINT_AFTER, q, script, from, to)
}

// What a change of this kind does.
fn change_of(kind: u32) -> Change
    ensures { result ≡ change_by kind }
{
    match kind {
        AFTER => Change::After,
        AFTER_POINTING => Change::After,
        BEFORE => Change::Before,
        BEFORE_POINTING => Change::Before,
        _ => Change::Exchange,
    }
}

fn is_pointing(kind: u32) -> bool
    ensures { result ≡ pointing_by kind }
{
    match kind {
        AFTER_POINTING => true,
        BEFORE_POINTING => true,
        EXCHANGE_POINTING => true,
        _ => false,
    }
}

// A, AP, B, BP, E, EP.
pub fn alters(
    script: &[u8],
    table: &[u8],
    w: &[u32],
    k: usize,
    kind: u32,
    ed: &mut Editor<'_>,
) -> Result<(), Stop>
    requires { SomeCommand script.now w.now k × SomeStand script.now w.now × IsReady table.now ed.old.journal.now ed.old.st × (kind ≡ kind_at w.now k) × (shape_of kind ≡ change_shape) × (is_global kind ≡ false) }
    ensures { Does (λ j st. PerformsAt script.now table.now w.now k j st) ed.old ed.new result }
{
    let at = k + 1;
    let q = quals_at(w, at);
    let from = start_at(w, at);
    let to = from + length_at(w, at);
    let word = w[end_at(w, at)];
    let start = string_start(word);
    let end = start + string_length(word);
    changes::alter(
        word_set(w),
        table,
        ed,
        change_of(kind),
        is_pointing(kind),
        q,
        script,
        from,
        to,
        start,
        end,
    )
}
