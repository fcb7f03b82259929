//! Messages of which bytes are wrong. Which ones are is told by numbers that look random, and that are the same in each run.

use crate::mistake::{Mistake, number_of};
use std::alloc::{AllocError, Global};

/// Numbers that look random: the upper bits of x, 6364136223846793005 x + 1442695040888963407 modulo 2^64, and so on.
#[derive(Clone, Copy)]
pub struct Numbers {
    state: u64,
}

/// How many messages with wrong bytes are meant, and the number that tells which bytes.
#[derive(Clone, Copy)]
pub struct WrongBytes {
    pub seed: u64,
    pub count: u64,
}

impl WrongBytes {
    /// What `SEED COUNT` means. Error: one of them is no number.
    pub fn of(text: &str) -> Result<WrongBytes, Mistake> {
        let (seed, count) = text.split_once(' ').unwrap_or((text, ""));
        Ok(WrongBytes {
            seed: number_of(seed)?,
            count: number_of(count)?,
        })
    }
}

impl Numbers {
    /// Those that begin with this one.
    pub fn new(seed: u64) -> Numbers {
        Numbers { state: seed }
    }

    // The next one below a bound, or 0 where that is 0.
    fn below(&mut self, bound: u64) -> u64 {
        self.state = self
            .state
            .wrapping_mul(6364136223846793005)
            .wrapping_add(1442695040888963407);
        (self.state >> 32).checked_rem(bound).unwrap_or(0)
    }

    // The next byte.
    fn byte(&mut self) -> u8 {
        u8::try_from(self.below(256)).unwrap_or(0)
    }

    // The next place in bytes.
    fn place(&mut self, bytes: &[u8]) -> usize {
        let place = self.below(bytes.len() as u64);
        usize::try_from(place).unwrap_or(0)
    }

    // A byte at a place and one at another: the first is given another value, dropped or doubled, or they are swapped.
    fn spoil(&mut self, bytes: &mut Vec<u8>) -> Result<(), AllocError> {
        let place = self.place(bytes.as_slice());
        let other = self.place(bytes.as_slice());
        let how = self.below(4);
        let value = self.byte();
        if place >= bytes.len() || other >= bytes.len() {
            return Ok(());
        }
        match how {
            0 => bytes[place] = value,
            1 => {
                bytes.remove(place);
            }
            2 => bytes.insert(place, bytes[place])?,
            _ => bytes.swap(place, other),
        }
        Ok(())
    }

    /// The bytes of which one to four are spoilt, `None` where they are the same again. Error: no memory.
    pub fn spoilt(&mut self, alloc: Global, bytes: &[u8]) -> Result<Option<Vec<u8>>, AllocError> {
        let mut spoilt = bytes.to_vec(alloc)?;
        self.spoil(&mut spoilt)?;
        for _ in 0..self.below(4) {
            self.spoil(&mut spoilt)?;
        }
        if spoilt.as_slice() == bytes {
            Ok(None)
        } else {
            Ok(Some(spoilt))
        }
    }
}
