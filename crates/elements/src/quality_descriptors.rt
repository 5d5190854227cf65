// IEC 60870-5-101: quality descriptor QDS, and the octet that follows a binary counter reading. Kept as information_elements.rs is.
ghost use Rattle.std.specs.Prelude.{◌≡◌};
ghost use Rattle.elements.specs.Quality.{qds_of, qds_octet, seq_qd_of, seq_qd_answer};

use crate::refusals::Refusal;

#[derive(Clone, Copy, Debug, PartialEq, Eq)]
pub struct Qds {
    pub iv: bool,
    pub nt: bool,
    pub sb: bool,
    pub bl: bool,
    pub ov: bool,
}

impl Qds {
    pub fn from_byte(byte: u8) -> Qds
        ensures { result ≡ qds_of byte }
    {
        Qds {
            iv: byte / 128 % 2 == 1,
            nt: byte / 64 % 2 == 1,
            sb: byte / 32 % 2 == 1,
            bl: byte / 16 % 2 == 1,
            ov: byte % 2 == 1,
        }
    }

    pub fn to_byte(self) -> u8
        ensures { result ≡ qds_octet self }
    {
        laws::bit(self.ov)
            + laws::bit(self.bl) * 16
            + laws::bit(self.sb) * 32
            + laws::bit(self.nt) * 64
            + laws::bit(self.iv) * 128
    }
}

#[derive(Clone, Copy, Debug, PartialEq, Eq)]
pub struct SeqQd {
    pub iv: bool,
    pub ca: bool,
    pub cy: bool,
    pub seq: u8,
}

impl SeqQd {
    pub fn from_byte(byte: u8) -> SeqQd
        ensures { result ≡ seq_qd_of byte }
    {
        SeqQd {
            iv: byte / 128 % 2 == 1,
            ca: byte / 64 % 2 == 1,
            cy: byte / 32 % 2 == 1,
            seq: byte % 32,
        }
    }

    #[tactic(auto, unfolding(crate::specs::Refusals::refusal))]
    pub fn to_byte(self) -> Result<u8, Refusal>
        ensures { result ≡ seq_qd_answer self }
    {
        if 31 < self.seq {
            return Err(Refusal::ValueOutOfRange);
        }
        Ok(self.seq + laws::bit(self.cy) * 32 + laws::bit(self.ca) * 64 + laws::bit(self.iv) * 128)
    }
}
