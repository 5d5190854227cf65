// What a command ends in where it has no answer.
ghost use Rattle.std.specs.Prelude.{◌≡◌};
ghost use Rattle.test_text.specs.declared.wrong.Wrong.TheVariants.{Output};

use elements::refusals::Refusal;
use std::{fmt, io};

#[derive(Drop)]
pub enum Wrong {
    // There is no such command, or it is given something else.
    Bad,
    Refused(Refusal),
    // The answer could not be written.
    Output(io::Error),
}

impl From<Refusal> for Wrong {
    fn from(refusal: Refusal) -> Wrong {
        Wrong::Refused(refusal)
    }
}

impl From<io::Error> for Wrong {
    ghost from_gives = { λ error wrong. wrong ≡ Output error };

    fn from(error: io::Error) -> Wrong {
        Wrong::Output(error)
    }
}

impl From<fmt::Error> for Wrong {
    fn from(error: fmt::Error) -> Wrong {
        Wrong::Output(error.into())
    }
}
