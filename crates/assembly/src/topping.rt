// Topping up: bytes of the chunk go into the carry until it holds one whole frame or the chunk is used up.
ghost use Rattle.std.specs.Prelude.{◌≡◌, ◌++◌, get_or};
ghost use Rattle.assembly.specs.Topping.{top_up_answer, topped};

use crate::start;
use elements::refusals::Refusal;

// The byte at a place of what is on hand.
fn on_hand(carried: &[u8], chunk: &[u8], at: usize) -> u8
    ensures { result ≡ get_or (carried.now ++ chunk.now) at 0 }
{
    if at < carried.len() {
        return carried[at];
    }
    laws::octet_at(chunk, at - carried.len())
}

// What is missing of the frame that begins on hand, as far as the chunk has it; all of the chunk while L is not known.
#[tactic(auto, unfolding(crate::specs::Start::carry_refusal, crate::specs::Topping::top_up_refusal, crate::specs::Topping::top_up_answer, crate::specs::Topping::moving))]
fn to_move(carry: &[u8], held: usize, chunk: &[u8]) -> Result<usize, Refusal>
    ensures { result ≡ top_up_answer carry.now held chunk.now }
{
    start::check_carry(carry, held)?;
    let carried = &carry[..held];
    if held.saturating_add(chunk.len()) < start::ENOUGH {
        return Ok(chunk.len());
    }
    let length = on_hand(carried, chunk, 1);
    start::check_start(on_hand(carried, chunk, 0), length)?;
    let size = start::HEADER_SIZE + (length as usize);
    Ok(size.saturating_sub(held).min(chunk.len()))
}

// How many bytes were moved: the carry holds so many more.
#[tactic(auto, unfolding(crate::specs::Topping::topped))]
pub fn top_up(carry: &mut [u8], held: usize, chunk: &[u8]) -> Result<usize, Refusal>
    ensures value { result ≡ top_up_answer carry.old held chunk.now }
    ensures carry_after { carry.new ≡ topped carry.old held chunk.now }
{
    let moved = to_move(carry, held, chunk)?;
    laws::put_octets(carry, held, start::part_to(chunk, moved));
    Ok(moved)
}
