// The carried types of document 01: each is a kind of its own, named as the Rust names its payload, with its number.
ghost use Rattle.std.specs.Prelude.{◌≡◌, ◌≤◌};
ghost use Rattle.std.specs.Option.{ok_or};
ghost use Rattle.elements.specs.declared.refusals.Refusal.TheVariants.{TypeNotCarried};
ghost use Rattle.objects.specs.Kinds.{kind_of, type_of, size_of};

use elements::refusals::Refusal;

#[derive(Clone, Copy, Debug, PartialEq, Eq)]
pub enum Kind {
    MSpNa1 = 1,
    MDpNa1 = 3,
    MStNa1 = 5,
    MBoNa1 = 7,
    MMeNa1 = 9,
    MMeNb1 = 11,
    MMeNc1 = 13,
    MItNa1 = 15,
    MMeNd1 = 21,
    MEiNa1 = 70,
    CIcNa1 = 100,
    CCiNa1 = 101,
    CRdNa1 = 102,
}

impl TryFrom<u8> for Kind {
    type Error = Refusal;

    ghost try_from_gives = { λ number answer. answer ≡ ok_or (kind_of number) TypeNotCarried };

    fn try_from(number: u8) -> Result<Kind, Refusal> {
        match number {
            1 => Ok(Kind::MSpNa1),
            3 => Ok(Kind::MDpNa1),
            5 => Ok(Kind::MStNa1),
            7 => Ok(Kind::MBoNa1),
            9 => Ok(Kind::MMeNa1),
            11 => Ok(Kind::MMeNb1),
            13 => Ok(Kind::MMeNc1),
            15 => Ok(Kind::MItNa1),
            21 => Ok(Kind::MMeNd1),
            70 => Ok(Kind::MEiNa1),
            100 => Ok(Kind::CIcNa1),
            101 => Ok(Kind::CCiNa1),
            102 => Ok(Kind::CRdNa1),
            _ => Err(Refusal::TypeNotCarried),
        }
    }
}

impl From<Kind> for u8 {
    ghost from_gives = { λ kind number. number ≡ type_of kind };

    fn from(kind: Kind) -> u8 {
        kind as u8
    }
}

// The octets of an element.
pub fn size_of(kind: Kind) -> usize
    ensures value { result ≡ size_of kind }
    ensures upper_bound { result ≤ 5 }
{
    match kind {
        Kind::MSpNa1 => 1,
        Kind::MDpNa1 => 1,
        Kind::MStNa1 => 2,
        Kind::MBoNa1 => 5,
        Kind::MMeNa1 => 3,
        Kind::MMeNb1 => 3,
        Kind::MMeNc1 => 5,
        Kind::MItNa1 => 5,
        Kind::MMeNd1 => 2,
        Kind::MEiNa1 => 1,
        Kind::CIcNa1 => 1,
        Kind::CCiNa1 => 1,
        Kind::CRdNa1 => 0,
    }
}
