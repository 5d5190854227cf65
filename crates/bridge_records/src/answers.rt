// Answers as numbers: 0 for what is accepted, or the number of the refusal. Where octets are written it is how many, or a refusal
// moved up. Kept: C sees them.
ghost use Rattle.std.specs.Prelude.{◌<◌};

use asdu::Form;
use elements::refusals::Refusal;

// Above any number of refusal.
const RESERVED: u32 = 100;
// Above any length of an ASDU or a frame.
pub const READING_REFUSED: u32 = 0x10000;

const WRITING_REFUSED: u32 = 0x20000;

pub fn number<T: Drop>(answer: Result<T, Refusal>) -> u32
    ensures { result < 256 }
{
    match answer {
        Ok(_) => 0,
        Err(refusal) => refusal as u32,
    }
}

pub fn plain_number(answer: Result<Form, Refusal>) -> u32 {
    match answer {
        Ok(Form::Reserved) => RESERVED,
        _ => number(answer),
    }
}

pub fn length(answer: Result<usize, Refusal>) -> u32 {
    match answer {
        Ok(n) => (n % 0x10000) as u32,
        Err(_) => WRITING_REFUSED + number(answer),
    }
}
