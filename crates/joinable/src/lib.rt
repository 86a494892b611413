// Whether a journal can be joined and turned round: bytes that are a journal, arranged, with at most 65,535 lines on either side (document 02, wish 7).
#![tactic(auto)]

ghost use Rattle.std.specs.Prelude.{◌≡◌, List};
ghost use Rattle.std.proofs.Math.Option.{some};
ghost use Rattle.definitions.specs.Journal.{Record, records_of};
ghost use Rattle.definitions.specs.Joining.{is_arranged, arranged_of};
ghost use Rattle.joinable.specs.Joinable.{is_taken, is_left, came_after};

use journal::measure;
use journal::records::{Mark, Records};

// A `--` record.
fn is_left(mark: Mark) -> bool
    ensures { result ≡ is_left mark }
{
    mark == Mark::Deleted
}

// Whether a `++` of the stretch has gone by after a record, if `came` says so before it.
#[tactic(auto, unfolding(crate::specs::Joinable::came_after))]
fn came_after(came: bool, mark: Mark) -> bool
    ensures { result ≡ came_after came mark }
{
    match mark {
        Mark::Kept | Mark::Changed => false,
        Mark::Deleted => came,
        Mark::Inserted => true,
    }
}

// Whether no `--` stands after a `++` of its stretch.
fn in_order(j: &[u8]) -> bool
    requires { (rs : List Record) × (records_of j.now ≡ some rs) }
    ensures { (rs : List Record) → records_of j.now ≡ some rs → result ≡ is_arranged rs }
{
    let mut came = false;
    for x in Records::from_start(j) {
        if came & is_left(x.mark) {
            return false;
        }
        came = came_after(came, x.mark);
    }
    true
}

// Whether a journal is taken.
pub fn joinable(j: &[u8]) -> bool
    ensures { result ≡ is_taken (arranged_of j.now) }
{
    let Some(m) = measure::check(j) else {
        return false;
    };
    m.shown <= 65535 && in_order(j)
}
