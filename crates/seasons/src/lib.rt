// One journal for two seasons: of a journal from old to middle and one from middle to new that from old to new (document 02, wish 7).
#![tactic(auto)]

mod measure;
mod write;

ghost use Rattle.std.specs.Prelude.{◌≡◌};
ghost use Rattle.definitions.specs.Joining.{join_to};
ghost use Rattle.journal.specs.Reading.{answered};

use joinable::joinable;
use journal::Refusal;

// Checks 11, then 32, then 10, then writes.
pub fn join(j: &[u8], k: &[u8], dest: &mut [u8]) -> Result<usize, Refusal>
    ensures { answered result dest.new ≡ join_to j.now k.now dest.old }
{
    if !joinable(j) {
        return Err(Refusal::Malformed);
    }
    if !joinable(k) {
        return Err(Refusal::Malformed);
    }
    let n = measure::measure(j, k, dest.len())?;
    write::write(j, k, dest);
    Ok(n)
}
