// Digests, for answers that are too many to be written out.
use crate::write::bits;
use std::fmt;

// A digest of answers, at first of none. Each answer is a few words to it.
#[derive(Clone, Copy, Default)]
pub struct Digest {
    value: u32,
}

impl Digest {
    // With a word more: its high half, then its low half.
    pub fn with_word(self, word: u64) -> Digest {
        let high = (word / 0x1_0000_0000) as u32;
        let low = (word % 0x1_0000_0000) as u32;
        self.with_half(high).with_half(low)
    }

    // With the half of a word more.
    fn with_half(self, half: u32) -> Digest {
        let next = (self.value as u64 * 1_000_003 + half as u64) % 4_294_967_291;
        Digest { value: next as u32 }
    }

    // With a double more.
    pub fn with_double(self, x: f64) -> Digest {
        self.with_word(bits(x))
    }
}

impl fmt::Display for Digest {
    fn fmt<W: fmt::Write>(&self, f: &mut fmt::Formatter<W>) -> fmt::Result {
        let value = self.value;
        write!(f, "{value:08x}")
    }
}
