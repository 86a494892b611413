// The records of a journal, and its readers: old side, new side and listing.
#![tactic(auto)]

pub mod marks;
pub mod measure;
pub mod records;
mod write;

ghost use Rattle.std.specs.Prelude.{◌≡◌};
ghost use Rattle.definitions.specs.Journal.{records_of};
ghost use Rattle.definitions.specs.Listing.{read_out, old_side_to, new_side_to, listing_to};
ghost use Rattle.journal.specs.Views.{out_of};
ghost use Rattle.journal.specs.Reading.{refusal_number, reading_number, reading_length, answered};

use records::View;

// Why a reader of a journal, joining or turning round writes nothing.
#[derive(Clone, Copy, PartialEq, Eq, Debug)]
pub enum Refusal {
    // Number 10: the destination is too short.
    Short,
    // Number 11: the bytes are no journal.
    Malformed,
    // Number 32: the middle tables of two journals differ.
    Differ,
}

impl From<Refusal> for u32 {
    ghost from_gives = { λ e n. n ≡ refusal_number e };

    #[tactic(auto, unfolding(crate::specs::Reading::refusal_number))]
    fn from(e: Refusal) -> u32 {
        match e {
            Refusal::Short => 10,
            Refusal::Malformed => 11,
            Refusal::Differ => 32,
        }
    }
}

// The number of an answer: 0 where it wrote.
#[tactic(auto, unfolding(crate::specs::Reading::reading_number))]
pub fn number(r: Result<usize, Refusal>) -> u32
    ensures { result ≡ reading_number r }
{
    match r {
        Ok(_) => 0,
        Err(e) => u32::from(e),
    }
}

// The written length; refused, it is 0.
#[tactic(auto, unfolding(crate::specs::Reading::reading_length))]
pub fn length(r: Result<usize, Refusal>) -> usize
    ensures { result ≡ reading_length r }
{
    r.unwrap_or(0)
}

// The lines of the old table.
#[tactic(auto, unfolding(definitions::specs::Listing::old_side_to, crate::specs::Views::out_of))]
pub fn old_side(j: &[u8], dest: &mut [u8]) -> Result<usize, Refusal>
    ensures { answered result dest.new ≡ old_side_to j.now dest.old }
{
    read(View::OldSide, j, dest)
}

// The lines of the new table.
#[tactic(auto, unfolding(definitions::specs::Listing::new_side_to, crate::specs::Views::out_of))]
pub fn new_side(j: &[u8], dest: &mut [u8]) -> Result<usize, Refusal>
    ensures { answered result dest.new ≡ new_side_to j.now dest.old }
{
    read(View::NewSide, j, dest)
}

// The lines of the new table, each with its number and what became of it.
#[tactic(auto, unfolding(definitions::specs::Listing::listing_to, definitions::specs::Listing::listing, crate::specs::Views::out_of))]
pub fn listing(j: &[u8], dest: &mut [u8]) -> Result<usize, Refusal>
    ensures { answered result dest.new ≡ listing_to j.now dest.old }
{
    read(View::Listing, j, dest)
}

// Checks 11, then 10, then writes.
fn read(view: View, j: &[u8], dest: &mut [u8]) -> Result<usize, Refusal>
    ensures { answered result dest.new ≡ read_out (out_of view) (records_of j.now) dest.old }
{
    let m = measure::check(j).ok_or(Refusal::Malformed)?;
    let n = measure::fits(view, m, dest.len()).ok_or(Refusal::Short)?;
    write::write(view, j, dest);
    Ok(n)
}
