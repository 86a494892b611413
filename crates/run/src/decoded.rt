// The items of a script, step by step.
ghost use Rattle.std.specs.Prelude.{◌≡◌};
ghost use Rattle.definitions.specs.Tape.{Tape};
ghost use Rattle.definitions.specs.Editor.{Ed};
ghost use Rattle.definitions.specs.Run.{end_place};
ghost use Rattle.editor.specs.Current.{Ready};
ghost use Rattle.run.specs.Items.{CanRun, NoneStands, RunsItems};
ghost use Rattle.run.specs.Edited.{RunsOn};

use editor::{Editor, State};
use steps::answer_step;

// How the steps end: the number, the steps that were made, the place, and the journal buffer's numbers.
#[derive(Clone, Copy)]
pub struct Ended {
    pub number: usize,
    pub steps: usize,
    pub place: usize,
    pub st: State,
}

// A command has stopped the run. W does it with 0, and being done has place 0.
fn stopped(number: usize, steps: usize, place: usize, st: State) -> Ended
    ensures { result ≡ record { number = number; steps = steps; place = end_place number place; st = st } }
{
    if number == 0 {
        return Ended {
            number,
            steps,
            place: 0,
            st,
        };
    }
    Ended {
        number,
        steps,
        place,
        st,
    }
}

// Runs the items in the words below `end`, at most `budget` steps. The words above them hold the bodies that run, the reserve's what is carried.
pub fn run_items(
    script: &[u8],
    table: &[u8],
    w: &mut [u32],
    end: usize,
    budget: usize,
    ed: &mut Editor<'_>,
) -> Ended
    requires { CanRun script.now w.old end budget × NoneStands script.now w.old end × ((e : Ed) × (t : Tape) × Ready table.now ed.old.journal.now ed.old.st e t) }
    ensures lent { ed.new.journal.ghost_name ≡ ed.old.journal.ghost_name }
    ensures runs { RunsOn (λ j st. RunsItems script.now w.old end budget table.now j st w.new) ed.old ed.new result }
{
    let mut c = control::start();
    let mut made: usize = 0;
    loop {
        let next = control::pull(w, end, c);
        let Some(x) = next else {
            return Ended {
                number: 0,
                steps: made,
                place: 0,
                st: ed.st,
            };
        };
        if made >= budget {
            return Ended {
                number: 29,
                steps: made,
                place: x.place,
                st: ed.st,
            };
        }
        let r = answer_step(script, table, w, x, ed, budget - made);
        made += r.made;
        match r.looked {
            Ok(held) => {
                c = control::go_on(x, held);
            }
            Err(stop) => {
                return stopped(usize::from(stop), made, x.place, ed.st);
            }
        }
    }
}
