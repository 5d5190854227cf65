// What a frame is: the numbers and flags of its control octets.
ghost use Rattle.std.specs.Prelude.{◌≡◌};
ghost use Rattle.apdu.specs.Control.{u_of, u_octet};

// The first octet.
pub const START: u8 = 0x68;

// The greatest L.
pub const MAX_LENGTH: u8 = 253;

// Octets before the ASDU, and of a frame without one.
pub const ASDU_START: usize = 6;

// Send and receive number. Kept: each a type of its own, as document 01 asks, so that they cannot be mixed; who writes an I frame
// has the two apart.
#[derive(Clone, Copy, Debug, PartialEq, Eq)]
pub struct SendNumber(pub u16);

#[derive(Clone, Copy, Debug, PartialEq, Eq)]
pub struct ReceiveNumber(pub u16);

// Start, stop and test of data transfer, each with its activation and its confirmation; reading takes none or several.
#[derive(Clone, Copy, Debug, PartialEq, Eq)]
pub struct UFrame {
    pub start_act: bool,
    pub start_con: bool,
    pub stop_act: bool,
    pub stop_con: bool,
    pub test_act: bool,
    pub test_con: bool,
}

#[derive(Clone, Copy, Debug, PartialEq, Eq)]
pub enum Frame {
    I(SendNumber, ReceiveNumber),
    S(ReceiveNumber),
    U(UFrame),
}

// Kept: the Rust's names, in place of `From`.
impl UFrame {
    pub fn from_byte(byte: u8) -> UFrame
        ensures { result ≡ u_of byte }
    {
        UFrame {
            start_act: byte / 4 % 2 == 1,
            start_con: byte / 8 % 2 == 1,
            stop_act: byte / 16 % 2 == 1,
            stop_con: byte / 32 % 2 == 1,
            test_act: byte / 64 % 2 == 1,
            test_con: byte / 128 % 2 == 1,
        }
    }

    pub fn to_byte(self) -> u8
        ensures { result ≡ u_octet self }
    {
        3 + laws::bit(self.start_act) * 4
            + laws::bit(self.start_con) * 8
            + laws::bit(self.stop_act) * 16
            + laws::bit(self.stop_con) * 32
            + laws::bit(self.test_act) * 64
            + laws::bit(self.test_con) * 128
    }
}
