// Picking the next frame: it only reads. The frame is a part of the carry if the carry holds anything, else of the chunk.
ghost use Rattle.std.specs.Prelude.{◌≡◌};
ghost use Rattle.assembly.specs.Picking.{pick_answer, pick_part};

use crate::{Pick, start};
use elements::refusals::Refusal;

// Names where the next frame is, without the part.
#[tactic(auto, unfolding(crate::specs::Picking::pick_answer))]
pub fn which(carry: &[u8], held: usize, chunk: &[u8]) -> Result<Pick, Refusal>
    ensures { result ≡ pick_answer carry.now held chunk.now }
{
    start::check_carry(carry, held)?;
    if 0 < held {
        let frame = start::try_frame(start::part_to(carry, held))?;
        return Ok(frame.map_or(Pick::More, Pick::Carry));
    }
    Ok(start::try_frame(chunk)?.map_or(Pick::More, Pick::Chunk))
}

// The next frame as a part of the carry or of the chunk; empty where more is needed and for a refusal.
#[tactic(auto, unfolding(crate::specs::Picking::pick_part))]
pub fn pick<'a>(carry: &'a [u8], held: usize, chunk: &'a [u8]) -> &'a [u8]
    ensures { result.now ≡ pick_part carry.now held chunk.now }
{
    match which(carry, held, chunk) {
        Ok(Pick::Carry(n)) => start::part_to(carry, n),
        Ok(Pick::Chunk(n)) => start::part_to(chunk, n),
        Ok(Pick::More) | Err(_) => &[],
    }
}
