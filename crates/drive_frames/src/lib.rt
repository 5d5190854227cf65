// The commands of `drive` on the octets of a frame or an ASDU.
#![tactic(auto)]

mod asdus;
mod frames;

use apdu::reading;
use asdu::Form;
use std::fmt::Write;
use test_text::reply::Reply;
use test_text::wrong::Wrong;
use test_text::{OCTETS_SIZE, octets};

fn show_form(reply: &mut Reply, form: Form) -> Result<(), Wrong> {
    match form {
        Form::Plain => reply.write_str("plain")?,
        Form::Reserved => reply.write_str("reserved")?,
    }
    Ok(())
}

// A command by its name, its octets as text, and a room for these.
pub fn answer(
    reply: &mut Reply,
    room: &mut [u8; OCTETS_SIZE],
    name: &str,
    digits: &str,
) -> Result<(), Wrong> {
    let given = octets::take(digits, room).ok_or(Wrong::Bad)?;
    match name {
        "frame" => frames::show(reply, given),
        "plain" => show_form(reply, reading::plain_frame(given)?),
        "rewrite" => frames::rewrite(reply, given),
        "asdu" => asdus::show(reply, given),
        "plainasdu" => show_form(reply, asdu_plain::plain_asdu(given)?),
        "rewriteasdu" => asdus::rewrite(reply, given),
        _ => Err(Wrong::Bad),
    }
}
