// The header of an ASDU: type, sequence mark and count, test and negative marks with the cause, originator, common address.
ghost use Rattle.std.specs.Prelude.{◌≡◌, ◌≤◌, IfOk};
ghost use Rattle.elements.specs.Refusals.{answer};
ghost use Rattle.asdu.specs.Header.{cause_listed, step_of, needed, layout_refusal, early_refusal, header_refusal, header_in, header_answer};

use elements::refusals::Refusal;
use objects::kinds;
use objects::kinds::Kind;

// Octets of the header.
pub const HEADER_SIZE: usize = 6;

// Octets of an object's address.
pub const ADDRESS_SIZE: usize = 3;

// Octets of an ASDU at most.
pub const MAX_SIZE: usize = 249;

// The count has seven bits.
pub const MAX_OBJECTS: usize = 127;

#[derive(Clone, Copy, Debug, PartialEq, Eq)]
pub struct Header {
    pub kind: Kind,
    pub count: usize,
    pub sequence: bool,
    pub test: bool,
    pub negative: bool,
    pub cause: u8,
    pub originator: u8,
    pub address: u16,
}

#[tactic(auto, unfolding(crate::specs::Header::cause_listed))]
pub fn cause_listed(cause: u8) -> bool
    ensures { result ≡ cause_listed cause }
{
    matches!(cause, 1..=13 | 20..=41 | 44..=47)
}

// Kept: a kind and the sequence mark go side by side, as the definitions have them (`step_of`, `needed`, `object_in`).

// From one element to the next: in the plain layout an address stands before each.
#[tactic(auto, unfolding(crate::specs::Header::step_of))]
pub fn step_of(kind: Kind, sequence: bool) -> usize
    ensures value { result ≡ step_of kind sequence }
    ensures upper_bound { result ≤ 8 }
{
    if sequence {
        return kinds::size_of(kind);
    }
    kinds::size_of(kind) + ADDRESS_SIZE
}

// The octets of an ASDU with n objects.
#[tactic(auto, unfolding(crate::specs::Header::needed))]
pub fn needed_len(kind: Kind, sequence: bool, n: u8) -> usize
    ensures value { result ≡ needed kind sequence n }
    ensures upper_bound { result ≤ 2049 }
{
    let body = (n as usize) * step_of(kind, sequence);
    if sequence {
        return 9 + body;
    }
    6 + body
}

// Kept beside `check_shape` of asdu_write: it refuses by other rows in another order, and shares one line.
#[tactic(auto, unfolding(crate::specs::Header::layout_refusal, elements::specs::Refusals::refusal))]
fn check_layout(kind: Kind, sequence: bool, n: u8, len: usize) -> Result<(), Refusal>
    ensures { result ≡ answer (layout_refusal kind sequence n len) tt }
{
    if len != needed_len(kind, sequence, n) {
        return Err(Refusal::LayoutMismatch);
    }
    if sequence && (n == 0 || kinds::size_of(kind) == 0) {
        return Err(Refusal::EmptySequence);
    }
    Ok(())
}

#[tactic(auto, unfolding(crate::specs::Header::header_in))]
fn header_of(s: &[u8], kind: Kind) -> Header
    ensures value { result ≡ header_in kind s.now }
    ensures count_bound { result.count ≤ 127 }
{
    let size = laws::octet_at(s, 1);
    let why = laws::octet_at(s, 2);
    Header {
        kind,
        count: (size % 128) as usize,
        sequence: size / 128 % 2 == 1,
        test: why / 128 % 2 == 1,
        negative: why / 64 % 2 == 1,
        cause: why % 64,
        originator: laws::octet_at(s, 3),
        address: laws::le::<2>(s, 4) as u16,
    }
}

// What is refused before the type is known: 17, 9, 10, 9.
#[tactic(auto, unfolding(crate::specs::Header::early_refusal, elements::specs::Refusals::refusal))]
fn check_start(s: &[u8]) -> Result<(), Refusal>
    ensures { result ≡ answer (early_refusal s.now) tt }
{
    if MAX_SIZE < s.len() {
        return Err(Refusal::AsduTooLong);
    }
    if s.len() < 3 {
        return Err(Refusal::AsduTooShort);
    }
    if !cause_listed(laws::octet_at(s, 2) % 64) {
        return Err(Refusal::CauseNotListed);
    }
    if s.len() < HEADER_SIZE {
        return Err(Refusal::AsduTooShort);
    }
    Ok(())
}

// What is refused of the header, with none made.
#[tactic(auto, unfolding(crate::specs::Header::header_refusal, elements::specs::Refusals::refusal))]
pub fn check_header(s: &[u8]) -> Result<(), Refusal>
    ensures { result ≡ answer (header_refusal s.now) tt }
{
    check_start(s)?;
    let kind = Kind::try_from(laws::octet_at(s, 0))?;
    let size = laws::octet_at(s, 1);
    check_layout(kind, size / 128 % 2 == 1, size % 128, s.len())
}

// The refusal first and the fields after it: so a caller that asks for no field pays for none (decision 39). Inline, since that
// holds only where the header is not handed over in memory.
#[inline(always)]
#[tactic(auto, unfolding(crate::specs::Header::header_answer))]
pub fn read_header(s: &[u8]) -> Result<Header, Refusal>
    ensures value { result ≡ header_answer s.now }
    ensures count_bound { IfOk result (λ h. h.count ≤ 127) }
{
    check_header(s)?;
    let kind = Kind::try_from(laws::octet_at(s, 0))?;
    Ok(header_of(s, kind))
}
