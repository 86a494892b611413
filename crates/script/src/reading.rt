// The reader that carries its place: a script, and the offset of its next byte. Thin: the work is done on the slice and numbers.
ghost use Rattle.std.specs.Prelude.{◌≡◌};
ghost use Rattle.script.specs.Reading.{Halfway};
ghost use Rattle.script.specs.Placed.{Moves};

use crate::read_one;
use answers::{Refusal, State};

#[derive(Clone, Copy)]
pub struct Reader<'a> {
    pub script: &'a [u8],
    // The next byte.
    pub at: usize,
}

// A reader of a script, at a place.
pub fn reader_at<'a>(script: &'a [u8], at: usize) -> Reader<'a>
    ensures { (result.script ≡ script.entry) × (result.at ≡ at) }
{
    Reader { script, at }
}

// Reads the next round and moves on; the state after it, none at the script's end, or the refusal as it came. Where reading does not go on, the reader
// stays.
pub fn read_next<'s, 'a, 'w>(
    r: &'s mut Reader<'a>,
    w: &'w mut [u32],
    st: State,
) -> Result<Option<State>, Refusal>
    requires { Halfway r.old.script.now w.old st r.old.at }
    ensures { Moves r.old r.new w.old w.new st result }
{
    let round = read_one(r.script, w, st, r.at);
    let Ok(Some(read)) = round else {
        return round.and(Ok(None));
    };
    r.at = read.next;
    Ok(Some(read.value))
}
