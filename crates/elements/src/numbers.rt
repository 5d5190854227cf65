// Signed numbers by their bits: two's complement, as wide as the type.
ghost use Rattle.std.specs.Prelude.{◌≡◌, ℕ, ℤ};
ghost use Rattle.laws.specs.Numbers.{signed_of, bits_of};

// A signed type and the unsigned one that has as many bits.
pub trait Signed {
    type Bits;

    ghost width: { ℕ };

    ghost value: { Self → ℤ };

    ghost number: { Self.Bits → ℕ };

    fn from_bits(n: Self::Bits) -> Self
        ensures { value result ≡ signed_of width (number n) };

    fn to_bits(self) -> Self::Bits
        ensures { number result ≡ bits_of width (value self) };
}

impl Signed for i8 {
    type Bits = u8;

    ghost width = { 8 };

    ghost value = { λ z. z };

    ghost number = { λ n. n };

    fn from_bits(n: u8) -> i8 {
        n.cast_signed()
    }

    fn to_bits(self) -> u8 {
        self.cast_unsigned()
    }
}

impl Signed for i16 {
    type Bits = u16;

    ghost width = { 16 };

    ghost value = { λ z. z };

    ghost number = { λ n. n };

    fn from_bits(n: u16) -> i16 {
        n.cast_signed()
    }

    fn to_bits(self) -> u16 {
        self.cast_unsigned()
    }
}

impl Signed for i32 {
    type Bits = u32;

    ghost width = { 32 };

    ghost value = { λ z. z };

    ghost number = { λ n. n };

    fn from_bits(n: u32) -> i32 {
        n.cast_signed()
    }

    fn to_bits(self) -> u32 {
        self.cast_unsigned()
    }
}
