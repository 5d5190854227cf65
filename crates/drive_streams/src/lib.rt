// The commands of `drive` on a stream: `topup` and `pick`, on a carry of 255 bytes and a chunk.
#![tactic(auto)]

use assembly::{Pick, picking, topping};
use elements::refusals::Refusal;
use std::fmt::Write;
use test_text::reply::Reply;
use test_text::wrong::Wrong;
use test_text::{OCTETS_SIZE, octets};

const CARRY_SIZE: usize = 255;

// Two texts with one space between: what the carry holds, and the chunk. The carry's room is larger than the carry: what is
// held past its end counts, but is not there.
fn take<'a>(
    given: &str,
    carry: &mut [u8; OCTETS_SIZE],
    room: &'a mut [u8],
) -> Option<(usize, &'a [u8])> {
    let (first, second) = given.split_once(' ')?;
    let held = octets::take(first, carry)?.len();
    Some((held, octets::take(second, room)?))
}

// This and the next stand apart, so that the search sees how long the carry's room is.
fn topped(carry: &mut [u8; OCTETS_SIZE], held: usize, chunk: &[u8]) -> Result<usize, Refusal> {
    topping::top_up(&mut carry[..CARRY_SIZE], held, chunk)
}

fn which(carry: &[u8; OCTETS_SIZE], held: usize, chunk: &[u8]) -> Result<Pick, Refusal> {
    picking::which(&carry[..CARRY_SIZE], held, chunk)
}

pub fn top_up(reply: &mut Reply, given: &str) -> Result<(), Wrong> {
    let mut carry = [0; OCTETS_SIZE];
    let mut room = [0; OCTETS_SIZE];
    let (held, chunk) = take(given, &mut carry, &mut room).ok_or(Wrong::Bad)?;
    let moved = topped(&mut carry, held, chunk)?;
    write!(reply, "moved {moved}")?;
    Ok(())
}

pub fn pick(reply: &mut Reply, given: &str) -> Result<(), Wrong> {
    let mut carry = [0; OCTETS_SIZE];
    let mut room = [0; OCTETS_SIZE];
    let (held, chunk) = take(given, &mut carry, &mut room).ok_or(Wrong::Bad)?;
    match which(&carry, held, chunk)? {
        Pick::Carry(n) => write!(reply, "carry {n}")?,
        Pick::Chunk(n) => write!(reply, "chunk {n}")?,
        Pick::More => reply.write_str("more")?,
    }
    Ok(())
}
