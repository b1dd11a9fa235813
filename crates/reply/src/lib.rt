// Answers put into the lent buffer: one line, the two of an ambiguous selection, or the lines of a method set. Of what does not fit the length is told, and the buffer is left as it was.
#![tactic(auto)]

pub mod one_line; // a word and numbers
pub mod selected; // a selection
pub mod set_lines; // the lines of a method set

ghost use Rattle.std.specs.Prelude.{◌≡◌};

use objects::refusals::Refusal;

// Why no answer stands in front of the buffer: a refusal, or an answer for which it is too short, with its length. What is said is told by its length.
#[derive(Clone, Copy, PartialEq, Eq)]
pub enum Unsaid {
    Refused(Refusal),
    Long(usize),
}

impl From<Refusal> for Unsaid {
    ghost use Rattle.reply.specs.declared.Unsaid.{Unsaid};

    ghost from_gives = { λ r u. u ≡ Unsaid.Refused r };

    fn from(refusal: Refusal) -> Unsaid {
        Unsaid::Refused(refusal)
    }
}
