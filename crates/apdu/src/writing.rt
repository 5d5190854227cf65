// Writing frames into a lent output (apdu.rs, `Frame::to_apdu_bytes`): only the octets reported written change.
ghost use Rattle.std.specs.Prelude.{◌≡◌, ◌≤◌, length, IsOk};
ghost use Rattle.std.proofs.lemmas.List.Edits.{sets};
ghost use Rattle.elements.specs.Refusals.{answer};
ghost use Rattle.asdu.specs.Writing.{asdu_octets};
ghost use Rattle.apdu.specs.Writing.{start_octets, i_octets, s_octets, u_octets, number_refusal, numbers_refusal, i_refusal, relay_refusal, s_refusal, room_refusal, answer_for, output_for};

use crate::frame;
use crate::frame::{ReceiveNumber, SendNumber, UFrame};
use asdu::{Asdu, checking};
use elements::refusals::Refusal;

#[tactic(auto, unfolding(crate::specs::Writing::number_refusal, elements::specs::Refusals::refusal))]
fn check_number(n: u16) -> Result<(), Refusal>
    ensures value { result ≡ answer (number_refusal n) tt }
    ensures bound { IsOk result → n ≤ 32767 }
{
    if 32767 < n {
        return Err(Refusal::ValueOutOfRange);
    }
    Ok(())
}

// The six octets before an ASDU: start, length, and the control octets as two numbers; as far as the output reaches.
pub fn put_start(out: &mut [u8], at: usize, length: u8, a: u16, b: u16)
    ensures { out.new ≡ sets out.old at (start_octets length a b) }
{
    if at < out.len() {
        laws::put_octet(out, at, frame::START);
        laws::put_octet(out, at + 1, length);
        laws::put_le::<2>(out, at + 2, a as u32);
        laws::put_le::<2>(out, at + 4, b as u32);
    }
}

#[tactic(auto, unfolding(crate::specs::Writing::s_refusal, crate::specs::Writing::room_refusal, crate::specs::Writing::answer_for, crate::specs::Writing::output_for, elements::specs::Refusals::refusal))]
pub fn write_s(receive: ReceiveNumber, out: &mut [u8]) -> Result<usize, Refusal>
    ensures value { result ≡ answer_for (s_refusal receive.0 (length out.old)) (s_octets receive.0) }
    ensures out_after { out.new ≡ output_for (s_refusal receive.0 (length out.old)) (s_octets receive.0) out.old }
{
    check_number(receive.0)?;
    if out.len() < frame::ASDU_START {
        return Err(Refusal::OutputTooShort);
    }
    put_start(out, 0, 4, 1, receive.0 * 2);
    Ok(frame::ASDU_START)
}

#[tactic(auto, unfolding(crate::specs::Writing::room_refusal, crate::specs::Writing::answer_for, crate::specs::Writing::output_for, elements::specs::Refusals::refusal))]
pub fn write_u(u: UFrame, out: &mut [u8]) -> Result<usize, Refusal>
    ensures value { result ≡ answer_for (room_refusal 6 (length out.old)) (u_octets u) }
    ensures out_after { out.new ≡ output_for (room_refusal 6 (length out.old)) (u_octets u) out.old }
{
    if out.len() < frame::ASDU_START {
        return Err(Refusal::OutputTooShort);
    }
    put_start(out, 0, 4, u.to_byte() as u16, 0);
    Ok(frame::ASDU_START)
}

#[tactic(auto, unfolding(crate::specs::Writing::numbers_refusal))]
fn check_numbers(send: SendNumber, receive: ReceiveNumber) -> Result<(), Refusal>
    ensures value { result ≡ answer (numbers_refusal send.0 receive.0) tt }
    ensures bounds { IsOk result → (send.0 ≤ 32767) × (receive.0 ≤ 32767) }
{
    check_number(send.0)?;
    check_number(receive.0)
}

// An I frame from a record. What the record refuses comes before an output that is too short.
#[tactic(auto, unfolding(crate::specs::Writing::i_refusal, crate::specs::Writing::answer_for, crate::specs::Writing::output_for, elements::specs::Refusals::refusal))]
pub fn write_i(
    send: SendNumber,
    receive: ReceiveNumber,
    asdu: &Asdu,
    out: &mut [u8],
) -> Result<usize, Refusal>
    ensures value { result ≡ answer_for (i_refusal send.0 receive.0 asdu.now (length out.old)) (i_octets send.0 receive.0 (asdu_octets asdu.now)) }
    ensures out_after { out.new ≡ output_for (i_refusal send.0 receive.0 asdu.now (length out.old)) (i_octets send.0 receive.0 (asdu_octets asdu.now)) out.old }
{
    check_numbers(send, receive)?;
    if out.len() < frame::ASDU_START {
        return asdu_write::check_write(asdu, 0).and(Err(Refusal::OutputTooShort));
    }
    let n = asdu_write::write_asdu(asdu, &mut out[frame::ASDU_START..])?;
    put_start(out, 0, (4 + n) as u8, send.0 * 2, receive.0 * 2);
    Ok(frame::ASDU_START + n)
}

// An I frame from an ASDU's octets, checked first. The link checks what it takes, and puts its frames by `put_start`.
#[tactic(auto, unfolding(crate::specs::Writing::relay_refusal, crate::specs::Writing::room_refusal, crate::specs::Writing::answer_for, crate::specs::Writing::output_for, elements::specs::Refusals::refusal))]
pub fn write_i_octets(
    send: SendNumber,
    receive: ReceiveNumber,
    asdu: &[u8],
    out: &mut [u8],
) -> Result<usize, Refusal>
    ensures value { result ≡ answer_for (relay_refusal send.0 receive.0 asdu.now (length out.old)) (i_octets send.0 receive.0 asdu.now) }
    ensures out_after { out.new ≡ output_for (relay_refusal send.0 receive.0 asdu.now (length out.old)) (i_octets send.0 receive.0 asdu.now) out.old }
{
    check_numbers(send, receive)?;
    checking::check_asdu(asdu)?;
    let size = asdu.len();
    if out.len() < frame::ASDU_START + size {
        return Err(Refusal::OutputTooShort);
    }
    laws::put_octets(out, frame::ASDU_START, asdu);
    put_start(out, 0, (4 + size) as u8, send.0 * 2, receive.0 * 2);
    Ok(frame::ASDU_START + size)
}
