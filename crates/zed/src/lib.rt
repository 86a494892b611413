// The functions that C programs call, by way of the static library `zed_c`, and that Rattle programs call: see include/zed.h.
#![tactic(auto)]

ghost use Rattle.std.specs.Prelude.{◌≡◌};
ghost use Rattle.definitions.specs.Run.{answer_number, buffer_after};
ghost use Rattle.journal.specs.Reading.{reading_number, reading_length};
ghost use Rattle.zed.specs.Values.{values, run_of};
ghost use Rattle.definitions.specs.Listing.{number_of, length_of, bytes_of, old_side_to, new_side_to, listing_to};
ghost use Rattle.definitions.specs.Joining.{join_to, turn_to};

use journal::Refusal;
use run::values::Values;

// Runs the script on the table; the journal goes into `journal`, and number, steps, furthest line, the journal's length and place into `answer`.
pub fn zed_run(
    table: &[u8],
    script: &[u8],
    budget: u32,
    work: &mut [u32],
    journal: &mut [u8],
    answer: &mut [u64; 5],
) -> u64
    ensures number { result ≡ answer_number (run_of table.now script.now budget work.old journal.old) }
    ensures answer { answer.new ≡ values (run_of table.now script.now budget work.old journal.old) }
    ensures journal { journal.new ≡ buffer_after journal.old (run_of table.now script.now budget work.old journal.old) }
{
    let a = run::run(table, script, budget, work, journal);
    let v = Values::from(a);
    let number = v.number as u64;
    let steps = v.steps as u64;
    let furthest = v.furthest as u64;
    let length = v.length as u64;
    let place = v.place as u64;
    *answer = [number, steps, furthest, length, place];
    number
}

// The old side of the journal `j`, written into `dest`; its length goes into `len`.
pub fn zed_old_side(j: &[u8], dest: &mut [u8], len: &mut usize) -> u32
    ensures number { result ≡ number_of (old_side_to j.now dest.old) }
    ensures length { len.new ≡ length_of (old_side_to j.now dest.old) }
    ensures bytes { dest.new ≡ bytes_of (old_side_to j.now dest.old) }
{
    answer(journal::old_side(j, dest), len)
}

// The new side of the journal `j`, written into `dest`; its length goes into `len`.
pub fn zed_new_side(j: &[u8], dest: &mut [u8], len: &mut usize) -> u32
    ensures number { result ≡ number_of (new_side_to j.now dest.old) }
    ensures length { len.new ≡ length_of (new_side_to j.now dest.old) }
    ensures bytes { dest.new ≡ bytes_of (new_side_to j.now dest.old) }
{
    answer(journal::new_side(j, dest), len)
}

// The listing of the journal `j`, written into `dest`; its length goes into `len`.
pub fn zed_listing(j: &[u8], dest: &mut [u8], len: &mut usize) -> u32
    ensures number { result ≡ number_of (listing_to j.now dest.old) }
    ensures length { len.new ≡ length_of (listing_to j.now dest.old) }
    ensures bytes { dest.new ≡ bytes_of (listing_to j.now dest.old) }
{
    answer(journal::listing(j, dest), len)
}

// The journals `j` and `k` joined, written into `dest`; the length goes into `len`.
pub fn zed_join(j: &[u8], k: &[u8], dest: &mut [u8], len: &mut usize) -> u32
    ensures number { result ≡ number_of (join_to j.now k.now dest.old) }
    ensures length { len.new ≡ length_of (join_to j.now k.now dest.old) }
    ensures bytes { dest.new ≡ bytes_of (join_to j.now k.now dest.old) }
{
    answer(seasons::join(j, k, dest), len)
}

// The journal `j` turned round, written into `dest`; the length goes into `len`.
pub fn zed_turn(j: &[u8], dest: &mut [u8], len: &mut usize) -> u32
    ensures number { result ≡ number_of (turn_to j.now dest.old) }
    ensures length { len.new ≡ length_of (turn_to j.now dest.old) }
    ensures bytes { dest.new ≡ bytes_of (turn_to j.now dest.old) }
{
    answer(turning::turn(j, dest), len)
}

// The number of a reader's answer; its length goes into `len`.
fn answer(r: Result<usize, Refusal>, len: &mut usize) -> u32
    ensures value { result ≡ reading_number r }
    ensures len_after { len.new ≡ reading_length r }
{
    *len = journal::length(r);
    journal::number(r)
}
