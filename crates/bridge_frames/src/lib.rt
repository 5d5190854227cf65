// Frames of the proved library for the programs that test it, beside crate `bridge`: records, and answers as numbers,
// as bridge_records has them.
#![tactic(auto)]

mod fields;

use apdu::frame::{Frame, ReceiveNumber, SendNumber};
use apdu::{reading, writing};
use bridge_records::{answers, records};
use elements::refusals::Refusal;

// The fields are written as far as `fields` reaches, and not beside a refusal.
pub fn gg_frame_read(f: &[u8], fields: &mut [u8]) -> u32 {
    let answer = reading::read_frame(f);
    if let Ok(frame) = answer {
        fields::put_frame(fields, frame);
    }
    answers::number(answer)
}

// How many octets the ASDU of the frame has. They are copied as far as `out` reaches.
pub fn gg_frame_asdu(f: &[u8], out: &mut [u8]) -> u32 {
    let part = reading::asdu_of(f);
    laws::put_octets(out, 0, part);
    (part.len() % 0x10000) as u32
}

pub fn gg_frame_plain(f: &[u8]) -> u32 {
    answers::plain_number(reading::plain_frame(f))
}

pub fn gg_frame_write_s(receive: u16, out: &mut [u8]) -> u32 {
    answers::length(writing::write_s(ReceiveNumber(receive), out))
}

pub fn gg_frame_write_u(flags: &[u8], out: &mut [u8]) -> u32 {
    answers::length(writing::write_u(fields::u_in(flags), out))
}

pub fn gg_frame_write_i(send: u16, receive: u16, record: &[u8], out: &mut [u8]) -> u32 {
    let asdu = records::record_in(record);
    answers::length(writing::write_i(SendNumber(send), ReceiveNumber(receive), &asdu, out))
}

pub fn gg_frame_write_i_octets(send: u16, receive: u16, asdu: &[u8], out: &mut [u8]) -> u32 {
    answers::length(writing::write_i_octets(SendNumber(send), ReceiveNumber(receive), asdu, out))
}

// The ASDU of an I frame that reads does too.
fn write_again(f: &[u8], frame: Frame, out: &mut [u8]) -> Result<usize, Refusal> {
    match frame {
        Frame::I(send, receive) => {
            let asdu = asdu_read::read_record(reading::asdu_of(f));
            writing::write_i(send, receive, &asdu, out)
        }
        Frame::S(receive) => writing::write_s(receive, out),
        Frame::U(u) => writing::write_u(u, out),
    }
}

pub fn gg_frame_rewrite(f: &[u8], out: &mut [u8]) -> u32 {
    let answer = reading::read_frame(f);
    match answer {
        Ok(frame) => answers::length(write_again(f, frame, out)),
        Err(_) => answers::READING_REFUSED + answers::number(answer),
    }
}
