// IEC 60870-5-101: single and double points with quality, step position, cause of initialisation.
// Kept: `from_byte` and `to_byte`, and the four marks in each struct, are the Rust's names and fields, so they are no `From` and no
// struct of their own.
ghost use Rattle.std.specs.Prelude.{◌≡◌, ◌≤◌};
ghost use Rattle.elements.specs.Points.{spi_of, spi_bits, siq_of, siq_octet, dpi_of, dpi_bits, diq_of, diq_octet};
ghost use Rattle.elements.specs.Steps.{step_position, vti_of, vti_answer};
ghost use Rattle.elements.specs.Causes.{coi_of, coi_answer};

use crate::numbers::Signed;
use crate::quality_descriptors::Qds;
use crate::refusals::Refusal;

#[derive(Clone, Copy, Debug, PartialEq, Eq)]
pub enum Spi {
    Off,
    On,
}

impl Spi {
    pub fn from_byte(byte: u8) -> Spi
        ensures { result ≡ spi_of byte }
    {
        match byte {
            0 => Spi::Off,
            _ => Spi::On,
        }
    }

    pub fn to_byte(self) -> u8
        ensures value { result ≡ spi_bits self }
        ensures upper_bound { result ≤ 1 }
    {
        match self {
            Spi::Off => 0,
            Spi::On => 1,
        }
    }
}

#[derive(Clone, Copy, Debug, PartialEq, Eq)]
pub struct Siq {
    pub iv: bool,
    pub nt: bool,
    pub sb: bool,
    pub bl: bool,
    pub spi: Spi,
}

impl Siq {
    pub fn from_byte(byte: u8) -> Siq
        ensures { result ≡ siq_of byte }
    {
        Siq {
            iv: byte / 128 % 2 == 1,
            nt: byte / 64 % 2 == 1,
            sb: byte / 32 % 2 == 1,
            bl: byte / 16 % 2 == 1,
            spi: Spi::from_byte(byte % 2),
        }
    }

    pub fn to_byte(self) -> u8
        ensures { result ≡ siq_octet self }
    {
        let spi = self.spi;
        spi.to_byte()
            + laws::bit(self.bl) * 16
            + laws::bit(self.sb) * 32
            + laws::bit(self.nt) * 64
            + laws::bit(self.iv) * 128
    }
}

#[derive(Clone, Copy, Debug, PartialEq, Eq)]
pub enum Dpi {
    Indeterminate,
    Off,
    On,
    Invalid,
}

impl Dpi {
    pub fn from_byte(byte: u8) -> Dpi
        ensures { result ≡ dpi_of byte }
    {
        match byte {
            0 => Dpi::Indeterminate,
            1 => Dpi::Off,
            2 => Dpi::On,
            _ => Dpi::Invalid,
        }
    }

    pub fn to_byte(self) -> u8
        ensures value { result ≡ dpi_bits self }
        ensures upper_bound { result ≤ 3 }
    {
        match self {
            Dpi::Indeterminate => 0,
            Dpi::Off => 1,
            Dpi::On => 2,
            Dpi::Invalid => 3,
        }
    }
}

#[derive(Clone, Copy, Debug, PartialEq, Eq)]
pub struct Diq {
    pub iv: bool,
    pub nt: bool,
    pub sb: bool,
    pub bl: bool,
    pub dpi: Dpi,
}

impl Diq {
    pub fn from_byte(byte: u8) -> Diq
        ensures { result ≡ diq_of byte }
    {
        Diq {
            iv: byte / 128 % 2 == 1,
            nt: byte / 64 % 2 == 1,
            sb: byte / 32 % 2 == 1,
            bl: byte / 16 % 2 == 1,
            dpi: Dpi::from_byte(byte % 4),
        }
    }

    pub fn to_byte(self) -> u8
        ensures { result ≡ diq_octet self }
    {
        let dpi = self.dpi;
        dpi.to_byte()
            + laws::bit(self.bl) * 16
            + laws::bit(self.sb) * 32
            + laws::bit(self.nt) * 64
            + laws::bit(self.iv) * 128
    }
}

// Value with transient state indication: seven signed bits and a mark, then the quality.
#[derive(Clone, Copy, Debug, PartialEq, Eq)]
pub struct Vti {
    pub value: i8,
    pub transient: bool,
    pub qds: Qds,
}

// Seven bits as a signed number: bit 6 is the sign, so it is copied to bit 7 first.
fn step_position(byte: u8) -> i8
    ensures { result ≡ step_position byte }
{
    let bits = byte % 128;
    if bits < 64 {
        return i8::from_bits(bits);
    }
    i8::from_bits(bits + 128)
}

impl Vti {
    pub fn from_byte(first: u8, second: u8) -> Vti
        ensures { result ≡ vti_of first second }
    {
        let qds = Qds::from_byte(second);
        Vti {
            value: step_position(first),
            transient: first / 128 % 2 == 1,
            qds,
        }
    }

    #[tactic(auto, unfolding(crate::specs::Refusals::refusal))]
    pub fn to_bytes(self) -> Result<(u8, u8), Refusal>
        ensures { result ≡ vti_answer self }
    {
        let bits = self.value.to_bits();
        let mark = laws::bit(self.transient) * 128;
        let qds = self.qds;
        if bits < 64 {
            return Ok((bits + mark, qds.to_byte()));
        }
        if 192 <= bits {
            return Ok((bits - 128 + mark, qds.to_byte()));
        }
        Err(Refusal::ValueOutOfRange)
    }
}

// Cause of initialisation: the whole octet, with three causes named.
#[derive(Clone, Copy, Debug, PartialEq, Eq)]
pub enum Coi {
    LocalPowerOn,
    LocalManualReset,
    RemoteReset,
    Other(u8),
}

impl Coi {
    pub fn from_byte(byte: u8) -> Coi
        ensures { result ≡ coi_of byte }
    {
        match byte {
            0 => Coi::LocalPowerOn,
            1 => Coi::LocalManualReset,
            2 => Coi::RemoteReset,
            _ => Coi::Other(byte),
        }
    }

    // A named cause is not written as another one: it would read back by its name.
    #[tactic(auto, unfolding(crate::specs::Refusals::refusal))]
    pub fn to_byte(self) -> Result<u8, Refusal>
        ensures { result ≡ coi_answer self }
    {
        match self {
            Coi::LocalPowerOn => Ok(0),
            Coi::LocalManualReset => Ok(1),
            Coi::RemoteReset => Ok(2),
            Coi::Other(byte) if byte < 3 => Err(Refusal::ValueOutOfRange),
            Coi::Other(byte) => Ok(byte),
        }
    }
}
