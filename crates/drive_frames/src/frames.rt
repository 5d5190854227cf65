// The commands `frame` and `rewrite`.
use apdu::frame::Frame;
use apdu::{reading, writing};
use elements::refusals::Refusal;
use std::fmt::Write;
use test_text::octets::{Digits, Hex};
use test_text::reply::Reply;
use test_text::wrong::Wrong;

// Octets of the longest frame.
const MAX_SIZE: usize = 255;

pub fn show(reply: &mut Reply, given: &[u8]) -> Result<(), Wrong> {
    match reading::read_frame(given)? {
        Frame::I(send, receive) => {
            write!(
                reply,
                "I {} {} {}",
                send.0,
                receive.0,
                Hex(reading::asdu_of(given))
            )?;
        }
        Frame::S(receive) => write!(reply, "S {}", receive.0)?,
        Frame::U(u) => write!(reply, "U {}", Digits(&[u.to_byte()]))?,
    }
    Ok(())
}

// The ASDU of an I frame that reads does too.
fn written(given: &[u8], out: &mut [u8]) -> Result<usize, Refusal> {
    match reading::read_frame(given)? {
        Frame::I(send, receive) => {
            let read = asdu_read::read_asdu(reading::asdu_of(given));
            writing::write_i(send, receive, &read.asdu, out)
        }
        Frame::S(receive) => writing::write_s(receive, out),
        Frame::U(u) => writing::write_u(u, out),
    }
}

pub fn rewrite(reply: &mut Reply, given: &[u8]) -> Result<(), Wrong> {
    let mut out = [0; MAX_SIZE];
    let n = written(given, &mut out)?;
    write!(reply, "{}", Hex(&out[..n.min(MAX_SIZE)]))?;
    Ok(())
}
