// The static library of include/zed.h: each export is the function of its name in `zed`.
#![tactic(auto)]

ghost use Rattle.std.specs.Prelude.{◌≡◌};
ghost use Rattle.definitions.specs.Run.{answer_number, buffer_after};
ghost use Rattle.zed.specs.Values.{values, run_of};
ghost use Rattle.definitions.specs.Listing.{number_of, length_of, bytes_of, old_side_to, new_side_to, listing_to};
ghost use Rattle.definitions.specs.Joining.{join_to, turn_to};

// Runs the script on the table; the journal goes into `journal`, and number, steps, furthest line, the journal's length and place into `answer`.
#[unsafe(no_mangle)]
pub extern "C" fn zed_run(
    table: &[u8],
    script: &[u8],
    budget: u32,
    work: &mut [u32],
    journal: &mut [u8],
    answer: &mut [u64; 5],
) -> u64
    ensures number { result ≡ answer_number (run_of table.now script.now budget work.old journal.old) }
    ensures answer { answer.new ≡ values (run_of table.now script.now budget work.old journal.old) }
    ensures journal { journal.new ≡ buffer_after journal.old (run_of table.now script.now budget work.old journal.old) }
{
    zed::zed_run(table, script, budget, work, journal, answer)
}

// The old side of the journal `j`, written into `dest`; its length goes into `len`.
#[unsafe(no_mangle)]
pub extern "C" fn zed_old_side(j: &[u8], dest: &mut [u8], len: &mut usize) -> u32
    ensures number { result ≡ number_of (old_side_to j.now dest.old) }
    ensures length { len.new ≡ length_of (old_side_to j.now dest.old) }
    ensures bytes { dest.new ≡ bytes_of (old_side_to j.now dest.old) }
{
    zed::zed_old_side(j, dest, len)
}

// The new side of the journal `j`, written into `dest`; its length goes into `len`.
#[unsafe(no_mangle)]
pub extern "C" fn zed_new_side(j: &[u8], dest: &mut [u8], len: &mut usize) -> u32
    ensures number { result ≡ number_of (new_side_to j.now dest.old) }
    ensures length { len.new ≡ length_of (new_side_to j.now dest.old) }
    ensures bytes { dest.new ≡ bytes_of (new_side_to j.now dest.old) }
{
    zed::zed_new_side(j, dest, len)
}

// The listing of the journal `j`, written into `dest`; its length goes into `len`.
#[unsafe(no_mangle)]
pub extern "C" fn zed_listing(j: &[u8], dest: &mut [u8], len: &mut usize) -> u32
    ensures number { result ≡ number_of (listing_to j.now dest.old) }
    ensures length { len.new ≡ length_of (listing_to j.now dest.old) }
    ensures bytes { dest.new ≡ bytes_of (listing_to j.now dest.old) }
{
    zed::zed_listing(j, dest, len)
}

// The journals `j` and `k` joined, written into `dest`; the length goes into `len`.
#[unsafe(no_mangle)]
pub extern "C" fn zed_join(j: &[u8], k: &[u8], dest: &mut [u8], len: &mut usize) -> u32
    ensures number { result ≡ number_of (join_to j.now k.now dest.old) }
    ensures length { len.new ≡ length_of (join_to j.now k.now dest.old) }
    ensures bytes { dest.new ≡ bytes_of (join_to j.now k.now dest.old) }
{
    zed::zed_join(j, k, dest, len)
}

// The journal `j` turned round, written into `dest`; the length goes into `len`.
#[unsafe(no_mangle)]
pub extern "C" fn zed_turn(j: &[u8], dest: &mut [u8], len: &mut usize) -> u32
    ensures number { result ≡ number_of (turn_to j.now dest.old) }
    ensures length { len.new ≡ length_of (turn_to j.now dest.old) }
    ensures bytes { dest.new ≡ bytes_of (turn_to j.now dest.old) }
{
    zed::zed_turn(j, dest, len)
}
