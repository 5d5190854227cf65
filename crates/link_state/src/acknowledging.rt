// What a receive number confirms (receive_handler.rs, `check_sequence_acknowledge`).
ghost use Rattle.std.specs.Prelude.{◌≡◌};
ghost use Rattle.link_state.specs.Acknowledging.{acknowledged};

use apdu::frame::{ReceiveNumber, SendNumber};
use elements::refusals::Refusal;

// How many of the `held` frames before number `next` does the number received confirm? Walks them from the oldest on.
pub fn acknowledge(next: SendNumber, held: usize, received: ReceiveNumber) -> Result<usize, Refusal>
    ensures { result ≡ acknowledged next.0 held received.0 }
{
    if !((next.0 <= 32767) & (held <= 32767) & (received.0 <= 32767)) {
        return Err(Refusal::OutsideLimits);
    }
    let number = received.0 as usize;
    let oldest = (next.0 as usize + 32768 - held) % 32768;
    for freed in 0..held + 1 {
        if (oldest + freed) % 32768 == number {
            return Ok(freed);
        }
    }
    Err(Refusal::WrongReceiveNumber)
}
