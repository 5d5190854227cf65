// Reading a frame (apdu.rs, `Apdu::from_bytes`), its ASDU as a part of it, and its plain form.
ghost use Rattle.std.specs.Prelude.{◌≡◌};
ghost use Rattle.elements.specs.Refusals.{answer};
ghost use Rattle.apdu.specs.Control.{number_at};
ghost use Rattle.apdu.specs.Plain.{plain_frame};
ghost use Rattle.apdu.specs.Reading.{outer_refusal, short_answer, long_answer, frame_answer, asdu_part};

use crate::frame;
use crate::frame::{Frame, ReceiveNumber, SendNumber, UFrame};
use asdu::{Form, checking};
use elements::refusals::Refusal;

// What is refused of a frame before its control octets: 1, 2, 3, 4.
#[tactic(auto, unfolding(crate::specs::Reading::outer_refusal, elements::specs::Refusals::refusal))]
fn check_outer(f: &[u8]) -> Result<(), Refusal>
    ensures { result ≡ answer (outer_refusal f.now) tt }
{
    if f.len() < frame::ASDU_START {
        return Err(Refusal::FrameTooShort);
    }
    if laws::octet_at(f, 0) != frame::START {
        return Err(Refusal::WrongStart);
    }
    let length = laws::octet_at(f, 1);
    if frame::MAX_LENGTH < length {
        return Err(Refusal::FrameTooLong);
    }
    if f.len() != 2 + (length as usize) {
        return Err(Refusal::LengthMismatch);
    }
    Ok(())
}

fn number_at(f: &[u8], at: usize) -> u16
    ensures { result ≡ number_at at f.now }
{
    (laws::le::<2>(f, at) / 2) as u16
}

// The control octets of a frame without an ASDU: 5, 6, 7.
#[tactic(auto, unfolding(crate::specs::Reading::short_answer, elements::specs::Refusals::refusal))]
fn read_short(f: &[u8]) -> Result<Frame, Refusal>
    ensures { result ≡ short_answer f.now }
{
    let first = laws::octet_at(f, 2);
    if first % 4 == 3 {
        if laws::octet_at(f, 3) != 0 {
            return Err(Refusal::BadUControl);
        }
        if laws::le::<2>(f, 4) != 0 {
            return Err(Refusal::BadUControl);
        }
        return Ok(Frame::U(UFrame::from_byte(first)));
    }
    if first % 4 != 1 {
        return Err(Refusal::IWithoutAsdu);
    }
    if laws::le::<2>(f, 2) != 1 {
        return Err(Refusal::BadSControl);
    }
    Ok(Frame::S(ReceiveNumber(number_at(f, 4))))
}

// The control octets of an I frame: 8, then what its ASDU refuses.
#[tactic(auto, unfolding(crate::specs::Reading::long_answer, elements::specs::Refusals::refusal))]
fn read_long(f: &[u8]) -> Result<Frame, Refusal>
    ensures { result ≡ long_answer f.now }
{
    if laws::octet_at(f, 2) % 2 != 0 {
        return Err(Refusal::BadIControl);
    }
    if laws::octet_at(f, 4) % 2 != 0 {
        return Err(Refusal::BadIControl);
    }
    checking::check_asdu(laws::part_from(f, frame::ASDU_START))?;
    let send = SendNumber(number_at(f, 2));
    let receive = ReceiveNumber(number_at(f, 4));
    Ok(Frame::I(send, receive))
}

#[tactic(auto, unfolding(crate::specs::Reading::frame_answer))]
pub fn read_frame(f: &[u8]) -> Result<Frame, Refusal>
    ensures { result ≡ frame_answer f.now }
{
    check_outer(f)?;
    if laws::octet_at(f, 1) == 4 {
        return read_short(f);
    }
    read_long(f)
}

// The ASDU of an I frame, as a part of the frame; empty for S, U and a refused frame.
#[tactic(auto, unfolding(crate::specs::Reading::asdu_part))]
pub fn asdu_of(f: &[u8]) -> &[u8]
    ensures { result.now ≡ asdu_part f.now }
{
    let Ok(Frame::I(_, _)) = read_frame(f) else {
        return laws::part_from(f, f.len());
    };
    laws::part_from(f, frame::ASDU_START)
}

// Whether writing a frame's reading gives the same octets.
#[tactic(auto, unfolding(crate::specs::Plain::plain_frame))]
pub fn plain_frame(f: &[u8]) -> Result<Form, Refusal>
    ensures { result ≡ plain_frame f.now }
{
    match read_frame(f)? {
        Frame::I(_, _) => asdu_plain::plain_asdu(laws::part_from(f, frame::ASDU_START)),
        Frame::S(_) => {
            if laws::octet_at(f, 4) % 2 == 0 {
                return Ok(Form::Plain);
            }
            Ok(Form::Reserved)
        }
        Frame::U(_) => Ok(Form::Plain),
    }
}
