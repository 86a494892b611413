// Document 01's values of an answer.
ghost use Rattle.std.specs.Prelude.{◌≡◌};
ghost use Rattle.run.specs.Answers.{values_of};

use crate::Answer;

// Number, steps, furthest source line read, the journal's length, and the place in the script.
#[derive(Clone, Copy)]
pub struct Values {
    pub number: usize,
    pub steps: usize,
    pub furthest: usize,
    pub length: usize,
    pub place: usize,
}

// The values of an answer. Done, number and place are 0; refused, steps, furthest line and length are.
impl From<Answer> for Values {
    ghost from_gives = { λ a v. v ≡ values_of a };

    #[tactic(auto, unfolding(crate::specs::Answers::values_of))]
    fn from(a: Answer) -> Values {
        match a {
            Answer::Done {
                steps,
                furthest,
                length,
            } => Values {
                number: 0,
                steps,
                furthest,
                length,
                place: 0,
            },
            Answer::Stopped {
                number,
                steps,
                furthest,
                length,
                place,
            } => Values {
                number,
                steps,
                furthest,
                length,
                place,
            },
            Answer::Refused { number, place } => Values {
                number,
                steps: 0,
                furthest: 0,
                length: 0,
                place,
            },
        }
    }
}
