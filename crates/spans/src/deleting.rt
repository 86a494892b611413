// D: the lines from one through another are deleted, and the next live line is current.
ghost use Rattle.std.specs.Prelude.{[], ◌∷◌};
ghost use Rattle.definitions.specs.Given.{no_globals};
ghost use Rattle.definitions.specs.Editor.{strike};
ghost use Rattle.definitions.specs.Edit.{Op};
ghost use Rattle.editor.specs.Shows.{Performs, Completes, target_numbered};
ghost use Rattle.editor.specs.Edited.{Does};
ghost use Rattle.spans.specs.Spans.{through_of, change_here};

use editor::{Editor, Stop};

// D from the current line on.
pub fn delete_here(ed: &mut Editor<'_>, through: usize) -> Result<(), Stop>
    ensures { Does (λ j st. Completes no_globals j st (change_here (λ n. strike n ∷ []) (through_of through))) ed.old ed.new result }
{
    let end = crate::finding::span_end(ed, through)?;
    let j = &mut *ed.journal;
    ed.st = crate::striking::strike_span(j, ed.st, end);
    Ok(())
}

// D: `from` is as in M. `through` is 0 for one line, 65,536 for `*`, else a source line.
pub fn delete_span(ed: &mut Editor<'_>, from: usize, through: usize) -> Result<(), Stop>
    ensures { Does (λ j st. Performs no_globals j st (Op.delete (target_numbered from) (through_of through))) ed.old ed.new result }
{
    ed.go_to(from)?;
    delete_here(ed, through)
}
