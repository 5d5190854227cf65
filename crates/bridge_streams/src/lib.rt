// Assembling of the proved library for the programs that test it, beside crates `bridge` and `bridge_frames`. An answer is
// a number: that of the refusal; or what it is, how many bytes were moved, and how many the frame has.
#![tactic(auto)]

use assembly::{Pick, Step, picking, stepping, topping};

// Kept as numbers: C sees them.
const CARRY: u8 = 1;

const CHUNK: u8 = 2;

const MORE: u8 = 3;

// Above any octet.
const PAST_THE_END: u32 = 256;

fn told(what: u8, moved: usize, size: usize) -> u32 {
    u32::from(what) * 0x1000000 + ((moved % 0x1000) as u32) * 0x1000 + ((size % 0x1000) as u32)
}

// Moved bytes are told as where more is needed.
pub fn gg_stream_top_up(carry: &mut [u8], held: usize, chunk: &[u8]) -> u32 {
    match topping::top_up(carry, held, chunk) {
        Ok(moved) => told(MORE, moved, 0),
        Err(refusal) => refusal as u32,
    }
}

pub fn gg_stream_which(carry: &[u8], held: usize, chunk: &[u8]) -> u32 {
    match picking::which(carry, held, chunk) {
        Ok(Pick::Carry(size)) => told(CARRY, 0, size),
        Ok(Pick::Chunk(size)) => told(CHUNK, 0, size),
        Ok(Pick::More) => told(MORE, 0, 0),
        Err(refusal) => refusal as u32,
    }
}

// The octet at a place of the part that is picked.
pub fn gg_stream_pick<'a>(carry: &'a [u8], held: usize, chunk: &'a [u8], place: usize) -> u32 {
    match picking::pick(carry, held, chunk).get(place) {
        Some(octet) => u32::from(*octet),
        None => PAST_THE_END,
    }
}

pub fn gg_stream_step(carry: &mut [u8], held: usize, chunk: &[u8]) -> u32 {
    match stepping::step(carry, held, chunk) {
        Ok(Step::Chunk(size)) => told(CHUNK, 0, size),
        Ok(Step::Carry(moved, size)) => told(CARRY, moved, size),
        Ok(Step::More(moved)) => told(MORE, moved, 0),
        Err(refusal) => refusal as u32,
    }
}
