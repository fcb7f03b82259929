//! One number for all results of a run.

/// A number that differs, most likely, where anything differs that was added to it, or the order of that.
#[derive(Clone, Copy)]
pub struct Digest {
    state: u64,
}

impl Digest {
    /// That of no results.
    pub fn new() -> Digest {
        Digest {
            state: 0xcbf2_9ce4_8422_2325,
        }
    }

    /// The number.
    pub fn value(&self) -> u64 {
        self.state
    }

    /// Adds a number.
    pub fn number(&mut self, number: u64) {
        let mixed = (self.state ^ number).wrapping_mul(0x9e37_79b9_7f4a_7c15);
        self.state = mixed ^ (mixed >> 29);
    }

    /// Adds an amount.
    pub fn amount(&mut self, amount: u128) {
        self.bytes(amount.to_be_bytes().as_slice());
    }

    /// Adds bytes, and how many they are.
    pub fn bytes(&mut self, bytes: &[u8]) {
        self.number(bytes.len() as u64);
        for byte in bytes {
            self.state = (self.state ^ u64::from(*byte)).wrapping_mul(0x0000_0100_0000_01b3);
        }
    }

    /// Adds bytes, and how many they are. For many bytes this is faster than `bytes`, and it gives another number.
    pub fn long_bytes(&mut self, bytes: &[u8]) {
        self.number(bytes.len() as u64);
        let whole = bytes.len().saturating_sub(bytes.len() % 8);
        let mut eight: u64 = 0;
        for place in 0..bytes.len() {
            let byte = u64::from(bytes[place]);
            if place >= whole {
                self.number(byte);
            } else {
                // the last eight bytes, since what is shifted out is gone
                eight = (eight << 8) | byte;
                if place % 8 == 7 {
                    self.number(eight);
                }
            }
        }
    }

    /// Adds a text.
    pub fn text(&mut self, text: &str) {
        self.bytes(text.as_bytes());
    }
}
