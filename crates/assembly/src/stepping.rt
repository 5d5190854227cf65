// One step of assembling: pick; where more is needed, top up and pick again.
ghost use Rattle.std.specs.Prelude.{◌≡◌};
ghost use Rattle.assembly.specs.Stepping.{stepped, step_answer, step_carry};

use crate::{Pick, Step, picking, topping};
use elements::refusals::Refusal;

fn after_moved(moved: usize, picked: Pick) -> Step
    ensures { result ≡ stepped moved picked }
{
    match picked {
        Pick::Carry(n) => Step::Carry(moved, n),
        Pick::Chunk(n) => Step::Chunk(n),
        Pick::More => Step::More(moved),
    }
}

#[tactic(auto, unfolding(crate::specs::Stepping::step_answer, crate::specs::Stepping::step_carry))]
pub fn step(carry: &mut [u8], held: usize, chunk: &[u8]) -> Result<Step, Refusal>
    ensures value { result ≡ step_answer carry.old held chunk.now }
    ensures carry_after { carry.new ≡ step_carry carry.old held chunk.now }
{
    let picked = picking::which(carry, held, chunk)?;
    let Pick::More = picked else {
        return Ok(after_moved(0, picked));
    };
    let moved = topping::top_up(carry, held, chunk)?;
    Ok(after_moved(moved, picking::which(carry, held + moved, chunk)?))
}
