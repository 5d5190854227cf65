// The elements as lists of their fields. A single or a double point is the number of its state. A cause of initialisation
// is 0 to 2 for a named one or 3 for another, and then the cause.
use crate::fields::Listed;
use elements::information_elements::{Coi, Diq, Dpi, Siq, Spi, Vti};
use elements::quality_descriptors::{Qds, SeqQd};

impl Listed for Qds {
    fn put(self, list: &mut &mut [u8]) {
        [self.iv, self.nt, self.sb, self.bl, self.ov].put(list);
    }

    fn take(list: &mut &[u8]) -> Qds {
        let [iv, nt, sb, bl, ov] = <[bool; 5]>::take(list);
        Qds { iv, nt, sb, bl, ov }
    }
}

impl Listed for Spi {
    fn put(self, list: &mut &mut [u8]) {
        self.to_byte().put(list);
    }

    fn take(list: &mut &[u8]) -> Spi {
        Spi::from_byte(Listed::take(list))
    }
}

impl Listed for Siq {
    fn put(self, list: &mut &mut [u8]) {
        ([self.iv, self.nt, self.sb, self.bl], self.spi).put(list);
    }

    fn take(list: &mut &[u8]) -> Siq {
        let ([iv, nt, sb, bl], spi) = <([bool; 4], Spi)>::take(list);
        Siq {
            iv,
            nt,
            sb,
            bl,
            spi,
        }
    }
}

impl Listed for Dpi {
    fn put(self, list: &mut &mut [u8]) {
        self.to_byte().put(list);
    }

    fn take(list: &mut &[u8]) -> Dpi {
        Dpi::from_byte(Listed::take(list))
    }
}

impl Listed for Diq {
    fn put(self, list: &mut &mut [u8]) {
        ([self.iv, self.nt, self.sb, self.bl], self.dpi).put(list);
    }

    fn take(list: &mut &[u8]) -> Diq {
        let ([iv, nt, sb, bl], dpi) = <([bool; 4], Dpi)>::take(list);
        Diq {
            iv,
            nt,
            sb,
            bl,
            dpi,
        }
    }
}

impl Listed for SeqQd {
    fn put(self, list: &mut &mut [u8]) {
        ([self.iv, self.ca, self.cy], self.seq).put(list);
    }

    fn take(list: &mut &[u8]) -> SeqQd {
        let ([iv, ca, cy], seq) = <([bool; 3], u8)>::take(list);
        SeqQd { iv, ca, cy, seq }
    }
}

impl Listed for Vti {
    fn put(self, list: &mut &mut [u8]) {
        (self.value, (self.transient, self.qds)).put(list);
    }

    fn take(list: &mut &[u8]) -> Vti {
        let (value, (transient, qds)) = <(i8, (bool, Qds))>::take(list);
        Vti {
            value,
            transient,
            qds,
        }
    }
}

impl Listed for Coi {
    fn put(self, list: &mut &mut [u8]) {
        let fields: [u8; 2] = match self {
            Coi::LocalPowerOn => [0, 0],
            Coi::LocalManualReset => [1, 1],
            Coi::RemoteReset => [2, 2],
            Coi::Other(cause) => [3, cause],
        };
        fields.put(list);
    }

    fn take(list: &mut &[u8]) -> Coi {
        match <[u8; 2]>::take(list) {
            [0, _] => Coi::LocalPowerOn,
            [1, _] => Coi::LocalManualReset,
            [2, _] => Coi::RemoteReset,
            [_, cause] => Coi::Other(cause),
        }
    }
}
