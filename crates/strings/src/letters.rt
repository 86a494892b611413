// Which qualifiers may stand together: each function adds one, where it can stand with the earlier ones.
ghost use Rattle.std.specs.Prelude.{◌≤◌};
ghost use Rattle.definitions.specs.Strings.{add_anchor, add_count, add_l, add_n, add_w, add_u, add_s, add_r, letter_of, read_qualifier};
ghost use Rattle.matching.specs.Quals.{anchor_of, qualifiers_of};
ghost use Rattle.strings.specs.Answers.{Small, Adds, AddsAt};

use answers::Fault;
use matching::Quals;

// B, E or P: anchor 1, 2 or 3.
fn add_anchor(q: Quals, anchor: u8) -> Result<Quals, Fault>
    requires { (1 ≤ anchor) × (anchor ≤ 3) × Small q }
    ensures { Adds (add_anchor (anchor_of anchor) (qualifiers_of q)) q result }
{
    if q.anchor != 0 {
        return Err(Fault::Qualifier);
    }
    if q.count != 0 {
        return Err(Fault::Qualifier);
    }
    if q.last {
        if anchor != 2 {
            return Err(Fault::Qualifier);
        }
    }
    Ok(Quals { anchor, ..q })
}

pub fn add_count(q: Quals, count: usize) -> Result<Quals, Fault>
    requires { (count ≤ 65535) × Small q }
    ensures { Adds (add_count count (qualifiers_of q)) q result }
{
    if q.anchor != 0 {
        return Err(Fault::Qualifier);
    }
    if q.pattern {
        return Err(Fault::Qualifier);
    }
    if q.count != 0 {
        return Err(Fault::Qualifier);
    }
    Ok(Quals { count, ..q })
}

fn add_last(q: Quals) -> Result<Quals, Fault>
    requires { Small q }
    ensures { Adds (add_l (qualifiers_of q)) q result }
{
    if q.last {
        return Err(Fault::Qualifier);
    }
    if q.anchor == 1 {
        return Err(Fault::Qualifier);
    }
    if q.anchor > 2 {
        return Err(Fault::Qualifier);
    }
    Ok(Quals { last: true, ..q })
}

// N stands in searches only.
fn add_negated(q: Quals, in_search: bool) -> Result<Quals, Fault>
    requires { Small q }
    ensures { Adds (add_n in_search (qualifiers_of q)) q result }
{
    if q.negated {
        return Err(Fault::Qualifier);
    }
    if in_search {
        return Ok(Quals { negated: true, ..q });
    }
    Err(Fault::Qualifier)
}

fn add_word(q: Quals) -> Result<Quals, Fault>
    requires { Small q }
    ensures { Adds (add_w (qualifiers_of q)) q result }
{
    if q.word {
        return Err(Fault::Qualifier);
    }
    Ok(Quals { word: true, ..q })
}

fn add_fold(q: Quals) -> Result<Quals, Fault>
    requires { Small q }
    ensures { Adds (add_u (qualifiers_of q)) q result }
{
    if q.fold {
        return Err(Fault::Qualifier);
    }
    if q.pattern {
        return Err(Fault::Qualifier);
    }
    Ok(Quals { fold: true, ..q })
}

fn add_skip(q: Quals) -> Result<Quals, Fault>
    requires { Small q }
    ensures { Adds (add_s (qualifiers_of q)) q result }
{
    if q.skip {
        return Err(Fault::Qualifier);
    }
    Ok(Quals { skip: true, ..q })
}

// R stands with no U and no count.
fn add_pattern(q: Quals) -> Result<Quals, Fault>
    requires { Small q }
    ensures { Adds (add_r (qualifiers_of q)) q result }
{
    if q.pattern {
        return Err(Fault::Qualifier);
    }
    if q.fold {
        return Err(Fault::Qualifier);
    }
    if q.count != 0 {
        return Err(Fault::Qualifier);
    }
    Ok(Quals { pattern: true, ..q })
}

// The qualifier of one letter, a capital one.
pub fn add_letter(q: Quals, letter: u8, in_search: bool) -> Result<Quals, Fault>
    requires { Small q }
    ensures { AddsAt (λ c. read_qualifier in_search (qualifiers_of q) c (letter_of letter)) q result }
{
    match letter {
        b'B' => add_anchor(q, 1),
        b'E' => add_anchor(q, 2),
        b'P' => add_anchor(q, 3),
        b'L' => add_last(q),
        b'N' => add_negated(q, in_search),
        b'W' => add_word(q),
        b'U' => add_fold(q),
        b'S' => add_skip(q),
        b'R' => add_pattern(q),
        _ => Err(Fault::Argument),
    }
}
