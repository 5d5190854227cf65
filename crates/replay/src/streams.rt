// The library's answer to one step of assembling.
use bridge_records::fields;

const CARRY_SIZE: usize = 255;

fn start_of(octets: &[u8], n: usize) -> &[u8] {
    &octets[..n.min(octets.len())]
}

// The carry holds the first bytes of what is given, and the rest is the chunk. Told is how many it holds, and the answer's
// number as bridge_streams has it. What is moved follows what was held.
pub fn steps(given: &[u8], told: &[u8]) -> bool {
    let (held, told_number) = told.split_first().unwrap_or((&0, &[]));
    let held = usize::from(*held);
    let (first, chunk) = given.split_at(held.min(given.len()));
    let mut carry = [0; CARRY_SIZE];
    bridge_streams::gg_stream_top_up(&mut carry, 0, first);
    let number = bridge_streams::gg_stream_step(&mut carry, held, chunk);
    if number != fields::take(told_number) {
        return false;
    }
    let end = held + (number / 0x1000 % 0x1000) as usize;
    start_of(&carry, end) == start_of(given, end)
}
