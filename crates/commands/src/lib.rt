// The simple commands of a script, performed on the journal buffer.
#![tactic(auto)]

mod lines;
mod one_word;
mod passing;
mod qualified;

ghost use Rattle.editor.specs.Current.{IsReady};
ghost use Rattle.editor.specs.Edited.{Does};
ghost use Rattle.reading.specs.Carrying.{SomeStand};
ghost use Rattle.commands.specs.Performing.{SomeCommand, LeavesCarried, PerformsAt};

use editor::{Editor, Stop};
use items::heads::{kind_of, shape_of};
use items::kinds::{FOURS, PAIRS, STRINGS, WORDS};

// The simple command whose words stand at k, whatever is carried; GE, GA, GB, CG and WORD are performed elsewhere, for they change what is carried.
pub fn perform(
    script: &[u8],
    table: &[u8],
    w: &[u32],
    k: usize,
    ed: &mut Editor<'_>,
) -> Result<(), Stop>
    requires { SomeCommand script.now w.now k × SomeStand script.now w.now × LeavesCarried w.now k × IsReady table.now ed.old.journal.now ed.old.st }
    ensures { Does (λ j st. PerformsAt script.now table.now w.now k j st) ed.old ed.new result }
{
    let kind = kind_of(w, k);
    match shape_of(kind) {
        WORDS => one_word::on_lines(script, table, w, kind, ed),
        PAIRS => lines::of_two_words(script, table, w, k, kind, ed),
        FOURS => lines::of_four_words(script, w, k, kind, ed),
        STRINGS => qualified::aims(script, table, w, k, kind, ed),
        _ => qualified::alters(script, table, w, k, kind, ed),
    }
}
