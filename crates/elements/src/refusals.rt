// Why a call says no: a refusal for each row of document 01's table, by the row's number.
ghost use Rattle.std.specs.Prelude.{◌≡◌, ◌++◌, Some, codes, decimal};
ghost use Rattle.std.specs.Option.{ok_or};
ghost use Rattle.elements.specs.Refusals.{number, refusal_of};

use std::error::Error;
use std::fmt;

#[derive(Clone, Copy, Debug, PartialEq, Eq)]
pub enum Refusal {
    FrameTooShort = 1,
    WrongStart = 2,
    FrameTooLong = 3,
    LengthMismatch = 4,
    IWithoutAsdu = 5,
    BadUControl = 6,
    BadSControl = 7,
    BadIControl = 8,
    AsduTooShort = 9,
    CauseNotListed = 10,
    TypeNotCarried = 11,
    LayoutMismatch = 12,
    EmptySequence = 13,
    WrongAddress = 14,
    ValueOutOfRange = 15,
    WrongKind = 16,
    AsduTooLong = 17,
    OutputTooShort = 18,
    OutsideLimits = 19,
    LinkClosed = 20,
    ClockWentBack = 21,
    ClockTooLate = 22,
    LinkOutputTooShort = 23,
    PoolTooShort = 24,
    QueueFull = 25,
    NotPlainForm = 26,
    WrongReceiveNumber = 27,
    WrongSendNumber = 28,
    UNotAnswered = 29,
    UTimedOut = 30,
    ITimedOut = 31,
    TooManyTests = 32,
    BadCarry = 33,
}

impl From<Refusal> for u8 {
    ghost from_gives = { λ refusal n. n ≡ number refusal };

    fn from(refusal: Refusal) -> u8 {
        refusal as u8
    }
}

// The refusal with a number, as a log or a link's record keeps it; a number that no row has comes back.
impl TryFrom<u8> for Refusal {
    type Error = u8;

    ghost try_from_gives = { λ n answer. answer ≡ ok_or (refusal_of n) n };

    fn try_from(number: u8) -> Result<Refusal, u8> {
        match number {
            1 => Ok(Refusal::FrameTooShort),
            2 => Ok(Refusal::WrongStart),
            3 => Ok(Refusal::FrameTooLong),
            4 => Ok(Refusal::LengthMismatch),
            5 => Ok(Refusal::IWithoutAsdu),
            6 => Ok(Refusal::BadUControl),
            7 => Ok(Refusal::BadSControl),
            8 => Ok(Refusal::BadIControl),
            9 => Ok(Refusal::AsduTooShort),
            10 => Ok(Refusal::CauseNotListed),
            11 => Ok(Refusal::TypeNotCarried),
            12 => Ok(Refusal::LayoutMismatch),
            13 => Ok(Refusal::EmptySequence),
            14 => Ok(Refusal::WrongAddress),
            15 => Ok(Refusal::ValueOutOfRange),
            16 => Ok(Refusal::WrongKind),
            17 => Ok(Refusal::AsduTooLong),
            18 => Ok(Refusal::OutputTooShort),
            19 => Ok(Refusal::OutsideLimits),
            20 => Ok(Refusal::LinkClosed),
            21 => Ok(Refusal::ClockWentBack),
            22 => Ok(Refusal::ClockTooLate),
            23 => Ok(Refusal::LinkOutputTooShort),
            24 => Ok(Refusal::PoolTooShort),
            25 => Ok(Refusal::QueueFull),
            26 => Ok(Refusal::NotPlainForm),
            27 => Ok(Refusal::WrongReceiveNumber),
            28 => Ok(Refusal::WrongSendNumber),
            29 => Ok(Refusal::UNotAnswered),
            30 => Ok(Refusal::UTimedOut),
            31 => Ok(Refusal::ITimedOut),
            32 => Ok(Refusal::TooManyTests),
            33 => Ok(Refusal::BadCarry),
            _ => Err(number),
        }
    }
}

impl fmt::Display for Refusal {
    ghost output = { λ refusal. Some (codes "refused " ++ decimal (number refusal)) };

    fn fmt<W: fmt::Write>(&self, f: &mut fmt::Formatter<W>) -> fmt::Result {
        write!(f, "refused {}", u8::from(*self))
    }
}

impl Error for Refusal {}
