// What host/ links of `bridge_streams`: each of its functions as a C function of the same name, as `bridge_c` is for `bridge`.
#![tactic(auto)]

#[unsafe(no_mangle)]
pub extern "C" fn gg_stream_top_up(carry: &mut [u8], held: usize, chunk: &[u8]) -> u32 {
    bridge_streams::gg_stream_top_up(carry, held, chunk)
}

#[unsafe(no_mangle)]
pub extern "C" fn gg_stream_which(carry: &[u8], held: usize, chunk: &[u8]) -> u32 {
    bridge_streams::gg_stream_which(carry, held, chunk)
}

#[unsafe(no_mangle)]
pub extern "C" fn gg_stream_pick<'a>(
    carry: &'a [u8],
    held: usize,
    chunk: &'a [u8],
    place: usize,
) -> u32 {
    bridge_streams::gg_stream_pick(carry, held, chunk, place)
}

#[unsafe(no_mangle)]
pub extern "C" fn gg_stream_step(carry: &mut [u8], held: usize, chunk: &[u8]) -> u32 {
    bridge_streams::gg_stream_step(carry, held, chunk)
}
