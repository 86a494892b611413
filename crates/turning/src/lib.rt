// A journal turned round (document 02, wish 7). In an arranged journal a stretch is its `--` records, then its `++` records. Turned round, what came is what
// leaves, so it is written first; nothing is moved afterwards. A record turned round has its length, so both journals have their stretches at the same places.
#![tactic(auto)]

ghost use Rattle.std.specs.Prelude.{◌≡◌, true, List, ◌∷◌, ◌+◌, ◌≤◌, length};
ghost use Rattle.std.proofs.Math.Option.{some};
ghost use Rattle.definitions.specs.Journal.{Record, record_bytes, record_length, journal_bytes, journal_length, records_of};
ghost use Rattle.definitions.specs.Joining.{turn_one, turn as turned, is_arranged, turn_to};
ghost use Rattle.theorems.specs.Arranged.{IsApart};
ghost use Rattle.text.specs.Buffer.{laid};
ghost use Rattle.journal.specs.Records.{Left};
ghost use Rattle.journal.specs.Views.{Puts};
ghost use Rattle.journal.specs.Reading.{answered};
ghost use Rattle.turning.specs.Rows.{row_of, row_bytes, stretch_length, stretch_turned};

use joinable::joinable;
use journal::records::Mark;
use journal::{Refusal, marks, records};

// The place after the row of the byte b at `at`.
// The byte is looked at before the record is read: gone through by `Records`, each kept record would be read three times in vain.
fn row_end(b: u8, j: &[u8], at: usize) -> usize
    requires { (rs : List Record) × Left j.now at rs }
    ensures { (rs : List Record) → Left j.now at rs → result ≡ at + journal_length (row_of b rs) }
{
    let mut i = at;
    while i < j.len() {
        if j[i] != b {
            return i;
        }
        let Some(x) = records::record_at(j, i) else {
            return i;
        };
        i = x.end + 1;
    }
    i
}

// Writes the lines of the row of the byte b at `from`, each after two bytes c, at `out`. The place after the row is handed back.
fn put_row(b: u8, c: u8, j: &[u8], from: usize, dest: &mut [u8], out: usize) -> usize
    requires { (rs : List Record) × Left j.now from rs × (out + length (row_bytes c (row_of b rs)) ≤ length dest.old) }
    ensures { (rs : List Record) → Left j.now from rs → (result ≡ from + journal_length (row_of b rs)) × (dest.new ≡ laid dest.old out (row_bytes c (row_of b rs))) }
{
    let mut at = from;
    let mut next = out;
    while at < j.len() {
        if j[at] != b {
            return at;
        }
        let Some(x) = records::record_at(j, at) else {
            return at;
        };
        next = marks::put_marked([c, c], &j[at + 2..x.mid + 1], dest, next);
        at = x.end + 1;
    }
    at
}

// Turns the stretch at `at` round. The place after it is handed back.
fn turn_stretch(j: &[u8], at: usize, dest: &mut [u8]) -> usize
    requires { (rs : List Record) × Left j.now at rs × (at ≤ length j.now) × (length j.now ≤ length dest.old) }
    ensures { (rs : List Record) → Left j.now at rs → (result ≡ at + stretch_length rs) × (dest.new ≡ laid dest.old at (stretch_turned rs)) }
{
    let left = row_end(b'-', j, at);
    let came = put_row(b'+', b'-', j, left, dest, at);
    put_row(b'-', b'+', j, at, dest, at + (came - left));
    came
}

// Turns the kept or changed record at `at` round. The place after it is handed back.
fn turn_one(j: &[u8], at: usize, dest: &mut [u8]) -> usize
    requires { (q : Record) × (qs : List Record) × Left j.now at (q ∷ qs) × IsApart q × (at + record_length q ≤ length dest.old) }
    ensures { (q : Record) (qs : List Record) → Left j.now at (q ∷ qs) → Puts (record_bytes (turn_one q)) dest.old at dest.new result }
{
    let Some(x) = records::record_at(j, at) else {
        return at;
    };
    if x.mark == Mark::Changed {
        let next = marks::put_marked([b'<', b'>'], &j[x.mid + 1..x.end + 1], dest, at);
        return marks::put_line(&j[at + 2..x.mid + 1], dest, next);
    }
    marks::put_line(&j[at..x.end + 1], dest, at)
}

// Turns all records of a journal round: each stretch, and the kept or changed record after it.
fn turn_all(j: &[u8], dest: &mut [u8])
    requires { (rs : List Record) × (records_of j.now ≡ some rs) × (is_arranged rs ≡ true) × (length j.now ≤ length dest.old) }
    ensures { (rs : List Record) → records_of j.now ≡ some rs → dest.new ≡ laid dest.old 0 (journal_bytes (turned rs)) }
{
    let mut at: usize = 0;
    while at < j.len() {
        at = turn_stretch(j, at, dest);
        if at < j.len() {
            at = turn_one(j, at, dest);
        }
    }
}

// Checks 11, then 10, then writes.
pub fn turn(j: &[u8], dest: &mut [u8]) -> Result<usize, Refusal>
    ensures { answered result dest.new ≡ turn_to j.now dest.old }
{
    if !joinable(j) {
        return Err(Refusal::Malformed);
    }
    if dest.len() < j.len() {
        return Err(Refusal::Short);
    }
    turn_all(j, dest);
    Ok(j.len())
}
