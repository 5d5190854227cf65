// What stands at the start of some bytes. A frame is 68 hex, the length L, and L bytes more.
ghost use Rattle.std.specs.Prelude.{◌≡◌, length, take};
ghost use Rattle.elements.specs.Refusals.{answer};
ghost use Rattle.assembly.specs.Start.{start_refusal, start_answer, carry_refusal};

use elements::refusals::Refusal;

pub const START: u8 = 0x68;

pub const MIN_LENGTH: u8 = 4;

pub const MAX_LENGTH: u8 = 253;

// Bytes before those that L counts.
pub const HEADER_SIZE: usize = 2;

// Bytes of the longest frame.
pub const MAX_SIZE: usize = 255;

// With fewer bytes on hand nothing is refused.
pub const ENOUGH: usize = 3;

// The first n bytes, or all where there are no more.
pub fn part_to(s: &[u8], n: usize) -> &[u8]
    ensures { result.now ≡ take n s.now }
{
    s.get(..n).unwrap_or(s)
}

// By the first byte and by L: 2, 3, 1.
#[tactic(auto, unfolding(crate::specs::Start::start_refusal, elements::specs::Refusals::refusal))]
pub fn check_start(first: u8, length: u8) -> Result<(), Refusal>
    ensures { result ≡ answer (start_refusal first length) tt }
{
    if first != START {
        return Err(Refusal::WrongStart);
    }
    if MAX_LENGTH < length {
        return Err(Refusal::FrameTooLong);
    }
    if length < MIN_LENGTH {
        return Err(Refusal::FrameTooShort);
    }
    Ok(())
}

// The size of the frame that stands there; none where more bytes are needed.
#[tactic(auto, unfolding(crate::specs::Start::sight))]
pub fn try_frame(s: &[u8]) -> Result<Option<usize>, Refusal>
    ensures { result ≡ start_answer s.now }
{
    if s.len() < ENOUGH {
        return Ok(None);
    }
    let length = s[1];
    check_start(s[0], length)?;
    let size = HEADER_SIZE + (length as usize);
    Ok((size <= s.len()).then_some(size))
}

// What is refused of a carry before anything is looked at: 33.
#[tactic(auto, unfolding(crate::specs::Start::carry_refusal, elements::specs::Refusals::refusal))]
pub fn check_carry(carry: &[u8], held: usize) -> Result<(), Refusal>
    ensures { result ≡ answer (carry_refusal (length carry.now) held) tt }
{
    if carry.len() < MAX_SIZE {
        return Err(Refusal::BadCarry);
    }
    if MAX_SIZE < held {
        return Err(Refusal::BadCarry);
    }
    Ok(())
}
