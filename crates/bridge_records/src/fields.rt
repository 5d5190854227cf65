// A value as the list of its fields: an octet for a mark, which is 0 or 1, and as many as it has for a number, the high
// octet first. A signed number is moved up by half its range. So numbers do not look like their octets on the wire.
//
// The fields are put at the start of a list and taken from its start, and the list goes on behind them. What a list has no
// room for is not put, and an octet past its end is taken as 0.
pub trait Listed: Copy {
    fn put(self, list: &mut &mut [u8]);

    fn take(list: &mut &[u8]) -> Self;
}

pub fn put<L: Listed>(list: &mut [u8], value: L) {
    let mut rest = list;
    value.put(&mut rest);
}

pub fn take<L: Listed>(list: &[u8]) -> L {
    let mut rest = list;
    L::take(&mut rest)
}

impl Listed for u8 {
    fn put(self, list: &mut &mut [u8]) {
        if let Some(place) = list.split_off_first_mut() {
            *place = self;
        }
    }

    fn take(list: &mut &[u8]) -> u8 {
        list.split_off_first().copied().unwrap_or(0)
    }
}

impl Listed for bool {
    fn put(self, list: &mut &mut [u8]) {
        u8::from(self).put(list);
    }

    fn take(list: &mut &[u8]) -> bool {
        u8::take(list) == 1
    }
}

impl<L: Listed, const N: usize> Listed for [L; N] {
    fn put(self, list: &mut &mut [u8]) {
        for value in self {
            value.put(list);
        }
    }

    fn take(list: &mut &[u8]) -> [L; N] {
        std::array::from_fn(|_| L::take(list))
    }
}

impl<A: Listed, B: Listed> Listed for (A, B) {
    fn put(self, list: &mut &mut [u8]) {
        let (first, second) = self;
        first.put(list);
        second.put(list);
    }

    fn take(list: &mut &[u8]) -> (A, B) {
        (A::take(list), B::take(list))
    }
}

impl Listed for u16 {
    fn put(self, list: &mut &mut [u8]) {
        self.to_be_bytes().put(list);
    }

    fn take(list: &mut &[u8]) -> u16 {
        u16::from_be_bytes(Listed::take(list))
    }
}

impl Listed for u32 {
    fn put(self, list: &mut &mut [u8]) {
        self.to_be_bytes().put(list);
    }

    fn take(list: &mut &[u8]) -> u32 {
        u32::from_be_bytes(Listed::take(list))
    }
}

impl Listed for i8 {
    fn put(self, list: &mut &mut [u8]) {
        self.wrapping_sub(i8::MIN).cast_unsigned().put(list);
    }

    fn take(list: &mut &[u8]) -> i8 {
        u8::take(list).cast_signed().wrapping_add(i8::MIN)
    }
}

impl Listed for i16 {
    fn put(self, list: &mut &mut [u8]) {
        self.wrapping_sub(i16::MIN).cast_unsigned().put(list);
    }

    fn take(list: &mut &[u8]) -> i16 {
        u16::take(list).cast_signed().wrapping_add(i16::MIN)
    }
}

impl Listed for i32 {
    fn put(self, list: &mut &mut [u8]) {
        self.wrapping_sub(i32::MIN).cast_unsigned().put(list);
    }

    fn take(list: &mut &[u8]) -> i32 {
        u32::take(list).cast_signed().wrapping_add(i32::MIN)
    }
}
