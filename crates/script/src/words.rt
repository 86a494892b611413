// WORD: its string is decoded, and the set is written.
ghost use Rattle.std.specs.Prelude.{false};
ghost use Rattle.definitions.specs.Commands.{names_words};
ghost use Rattle.script.specs.Reading.{CommandRoom};
ghost use Rattle.script.specs.Commands.{ShapeRead};

use crate::commands::whole;
use answers::{Answer, Command, Fault};
use items::heads::head;
use items::kinds::WORD_SET;
use items::puts::put_one;
use lexer::spaces::skip_spaces;
use lexer::strings::quoted;

// WORD: a string that names bytes. 33: a `-` or `"` that is used otherwise.
pub fn names(s: &[u8], w: &mut [u32], k: usize, place: usize, at: usize) -> Answer<Command>
    requires { CommandRoom s.now w.old place at k }
    ensures { ShapeRead s.now w.old w.new place at k false names_words result }
{
    let string = quoted(s, skip_spaces(s, at))?;
    let part = string.value;
    match wordset::decode(w, k + 1, s, part.start, part.end) {
        Err(misused) => Err(Fault::Names.at(misused.at)),
        Ok(()) => {
            put_one(w, k, head(WORD_SET, place));
            Ok(whole(k + 4, string.next))
        }
    }
}
