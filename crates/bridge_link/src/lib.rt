// The link of the proved library for the programs that test it. The caller keeps a link as a list of 74 numbers
// (bridge_cells). Each function answers document 01's number of refusal, 0 for none.
#![tactic(auto)]

#[cfg(test)]
mod tests;

use bridge_cells::{called, cells};
use link::answers::Done;
use link_state::opening;

// The first control octet of a test con.
const TEST_CON: u8 = 0x83;

// With the settings that the list has. All else is new, the times beside deadlines that are not set too.
pub fn gg_link_open(list: &mut [u64], moment: u64) -> u32 {
    let opened = opening::open(cells::settings_in(list), moment);
    let nothing = Done {
        written: 0,
        full: false,
        came: false,
    };
    for place in [cells::T1U_AT, cells::T2_AT, cells::T3_AT] {
        cells::clear(list, place);
    }
    called::put(list, opened.link, nothing);
    match opened.answer {
        Ok(()) => 0,
        Err(refusal) => refusal as u32,
    }
}

pub fn gg_link_receive(
    list: &mut [u64],
    pool: &[u8],
    out: &mut [u8],
    f: &[u8],
    more: bool,
    moment: u64,
) -> u32 {
    let called = link_receive::receive(cells::link_in(list), pool, out, f, more, moment);
    let refusal = called::put_called(list, called, out);
    // An accepted test con unsets t1 of U frames.
    if (refusal == 0) & (f.get(2) == Some(&TEST_CON)) {
        cells::clear(list, cells::T1U_AT);
    }
    refusal
}

pub fn gg_link_send(
    list: &mut [u64],
    pool: &mut [u8],
    out: &mut [u8],
    asdu: &[u8],
    moment: u64,
) -> u32 {
    let called = link_send::send(cells::link_in(list), pool, out, asdu, moment);
    called::put_called(list, called, out)
}

pub fn gg_link_stop(list: &mut [u64], pool: &[u8], out: &mut [u8], moment: u64) -> u32 {
    let called = link_time::stop(cells::link_in(list), pool, out, moment);
    called::put_called(list, called, out)
}

pub fn gg_link_test(list: &mut [u64], pool: &[u8], out: &mut [u8], moment: u64) -> u32 {
    let called = link_time::test(cells::link_in(list), pool, out, moment);
    called::put_called(list, called, out)
}

pub fn gg_link_tick(list: &mut [u64], pool: &[u8], out: &mut [u8], moment: u64) -> u32 {
    let called = link_time::tick(cells::link_in(list), pool, out, moment);
    called::put_called(list, called, out)
}
