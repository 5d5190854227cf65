// Checking an ASDU: what reading refuses, with no record built.
ghost use Rattle.std.specs.Prelude.{◌≡◌, ◌≤◌, IfOk};
ghost use Rattle.elements.specs.Refusals.{answer};
ghost use Rattle.asdu.specs.Reading.{objects_refusal, addresses_refusal, read_refusal, checked_header};

use crate::header;
use crate::header::Header;
use elements::refusals::Refusal;

// What is refused of the objects, in time that does not grow with their count:
// the addresses of a sequence rise, so its last one tells whether all fit.
#[tactic(auto, unfolding(crate::specs::Reading::addresses_refusal, elements::specs::Refusals::refusal))]
fn check_addresses(s: &[u8], sequence: bool, count: usize) -> Result<(), Refusal>
    ensures { result ≡ answer (addresses_refusal sequence count s.now) tt }
{
    if !sequence {
        return Ok(());
    }
    // More than any count that is read, so that the sum below fits 32 bits.
    if 16777216 < count {
        return Err(Refusal::WrongAddress);
    }
    if laws::le::<3>(s, 6) + (count as u32) <= 16777216 {
        return Ok(());
    }
    Err(Refusal::WrongAddress)
}

pub fn check_objects(s: &[u8], h: Header) -> Result<(), Refusal>
    ensures { result ≡ answer (objects_refusal h s.now) tt }
{
    check_addresses(s, h.sequence, h.count)
}

// What reading refuses, with no record built.
#[tactic(auto, unfolding(crate::specs::Reading::read_refusal))]
pub fn check_asdu(s: &[u8]) -> Result<(), Refusal>
    ensures { result ≡ answer (read_refusal s.now) tt }
{
    header::check_header(s)?;
    let size = laws::octet_at(s, 1);
    check_addresses(s, size / 128 % 2 == 1, (size % 128) as usize)
}

// The header, where nothing is refused of it and of the objects. Inline, as `read_header` is.
#[inline(always)]
#[tactic(auto, unfolding(crate::specs::Header::header_answer, crate::specs::Reading::read_refusal, crate::specs::Reading::checked_header))]
pub fn checked_header(s: &[u8]) -> Result<Header, Refusal>
    ensures value { result ≡ checked_header s.now }
    ensures count_bound { IfOk result (λ h. h.count ≤ 127) }
{
    let h = header::read_header(s)?;
    check_objects(s, h)?;
    Ok(h)
}
