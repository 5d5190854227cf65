// Assembling frames from a stream that is cut anywhere (receive_handler.rs, `try_parse_apdu`).
// A chunk is what came at once; the carry holds the start of a frame whose end has not come, its first `held` bytes.
// On hand are these and then the chunk.
// Kept: the public functions take the carry's buffer, its count and the chunk one by one. The caller lends the buffer (there is
// no heap), and a count past its end is answered by 33.
#![tactic(auto)]

pub mod picking;
pub mod start;
pub mod stepping;
pub mod topping;

// What picking finds: the carry or the chunk begins with a whole frame of so many bytes, or more is needed.
#[derive(Clone, Copy, Debug, PartialEq, Eq)]
pub enum Pick {
    Carry(usize),
    Chunk(usize),
    More,
}

// What a step comes to: a frame of n bytes at the chunk's start, which the caller goes on after; or the first number of bytes was
// moved and the carry holds a frame of the second, after which the caller empties it; or all of the chunk was moved and more is needed.
#[derive(Clone, Copy, Debug, PartialEq, Eq)]
pub enum Step {
    Chunk(usize),
    Carry(usize, usize),
    More(usize),
}
