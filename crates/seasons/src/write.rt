// Writes what two journals leave, arranged (document 02, wish 6): both are gone through twice in a stretch without kept or changed records, once for what left,
// once for what came. So nothing is moved afterwards, and no memory is needed but the destination.
ghost use Rattle.std.specs.Prelude.{◌≡◌, false, List, ◌+◌, ◌≤◌, length, Some, Ok};
ghost use Rattle.definitions.specs.Journal.{Record, record_bytes, journal_bytes, journal_length, change};
ghost use Rattle.definitions.specs.Arranging.{arrange};
ghost use Rattle.text.specs.Buffer.{laid};
ghost use Rattle.journal.specs.Views.{Puts};
ghost use Rattle.middle.specs.Middle.{next_at};
ghost use Rattle.middle.specs.declared.Next.{Next};
ghost use Rattle.middle.specs.Leaving.{Within, Stand, text_in, leaves};
ghost use Rattle.seasons.specs.Joined.{Due, start, is_both, of_kind, stretch, RowPut, Advances};

use journal::marks::{put_line, put_marked};
use journal::records::Span;
use middle::{Next, Places, Texts};

// The records of a stretch that are written: `--` or `++`.
#[derive(Clone, Copy)]
pub enum Kind {
    WhatLeft,
    WhatCame,
}

// Where a stretch ends, and where the next record goes.
#[derive(Clone, Copy)]
pub struct Row {
    pub end: Places,
    pub out: usize,
}

// Writes the record of a line with both texts: kept or changed.
fn put_both(j: &[u8], old: Span, k: &[u8], new: Span, dest: &mut [u8], out: usize) -> usize
    requires { Within j.now old × Within k.now new × (out + length (record_bytes (change (text_in j.now old) (text_in k.now new))) ≤ length dest.old) }
    ensures { Puts (record_bytes (change (text_in j.now old) (text_in k.now new))) dest.old out dest.new result }
{
    if middle::same_text(j, old, k, new) {
        return put_marked([b'=', b'='], &j[old.from..old.to], dest, out);
    }
    let next = put_marked([b'<', b'>'], &j[old.from..old.to], dest, out);
    put_line(&k[new.from..new.to], dest, next)
}

// Writes the record of a line with one text, if it is of the kind.
fn put_of(kind: Kind, j: &[u8], k: &[u8], line: Texts, dest: &mut [u8], out: usize) -> usize
    requires { Stand j.now k.now line × (out + length (journal_bytes (of_kind kind (leaves j.now k.now line))) ≤ length dest.old) }
    ensures { Puts (journal_bytes (of_kind kind (leaves j.now k.now line))) dest.old out dest.new result }
{
    match (kind, line.old, line.new) {
        (Kind::WhatLeft, Some(old), None) => {
            put_marked([b'-', b'-'], &j[old.from..old.to], dest, out)
        }
        (Kind::WhatCame, None, Some(new)) => {
            put_marked([b'+', b'+'], &k[new.from..new.to], dest, out)
        }
        _ => out,
    }
}

// A line with both texts.
fn is_both(line: Texts) -> bool
    ensures { result ≡ is_both line }
{
    line.old.is_some() && line.new.is_some()
}

// Writes the records of one kind of the stretch that begins at p.
fn put_row(kind: Kind, j: &[u8], k: &[u8], p: Places, dest: &mut [u8], out: usize) -> Row
    requires { (w : List Record) × Due j.now k.now p w × (out + journal_length (of_kind kind (stretch w)) ≤ length dest.old) }
    ensures { (w : List Record) → Due j.now k.now p w → RowPut kind j.now k.now p w dest.old out dest.new result }
{
    let mut at = p;
    let mut o = out;
    while let Ok(Some(next)) = middle::next_line(j, k, at) {
        if is_both(next.line) {
            return Row { end: at, out: o };
        }
        o = put_of(kind, j, k, next.line, dest, o);
        at = next.after;
    }
    Row { end: at, out: o }
}

// Writes the stretch that begins at p: what left, then what came.
fn put_stretch(j: &[u8], k: &[u8], p: Places, dest: &mut [u8], out: usize) -> Row
    requires { (w : List Record) × (n : Next) × Due j.now k.now p w × (out + journal_length w ≤ length dest.old) × (next_at j.now k.now p ≡ Ok (Some n)) × (is_both n.line ≡ false) }
    ensures { (w : List Record) → Due j.now k.now p w → Advances j.now k.now p w dest.old out dest.new result }
{
    let left = put_row(Kind::WhatLeft, j, k, p, dest, out);
    put_row(Kind::WhatCame, j, k, p, dest, left.out)
}

// Writes the line that comes next, or the stretch that begins with it.
fn put_next(j: &[u8], k: &[u8], p: Places, next: Next, dest: &mut [u8], out: usize) -> Row
    requires { (w : List Record) × Due j.now k.now p w × (out + journal_length w ≤ length dest.old) × (next_at j.now k.now p ≡ Ok (Some next)) }
    ensures { (w : List Record) → Due j.now k.now p w → Advances j.now k.now p w dest.old out dest.new result }
{
    match (next.line.old, next.line.new) {
        (Some(old), Some(new)) => Row {
            end: next.after,
            out: put_both(j, old, k, new, dest, out),
        },
        _ => put_stretch(j, k, p, dest, out),
    }
}

// All records, from the destination's start on.
pub fn write(j: &[u8], k: &[u8], dest: &mut [u8])
    requires { (w : List Record) × Due j.now k.now start w × (journal_length w ≤ length dest.old) }
    ensures { (w : List Record) → Due j.now k.now start w → dest.new ≡ laid dest.old 0 (journal_bytes (arrange w)) }
{
    let mut p = Places {
        first: 0,
        second: 0,
    };
    let mut out: usize = 0;
    while let Ok(Some(next)) = middle::next_line(j, k, p) {
        let row = put_next(j, k, p, next, dest, out);
        p = row.end;
        out = row.out;
    }
}
