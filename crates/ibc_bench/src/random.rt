//! Numbers that look random, and are the same in each run.

/// The numbers that the generator splitmix64 makes of a seed.
#[derive(Clone, Copy)]
pub struct Random {
    state: u64,
}

impl Random {
    /// Those that begin with this seed.
    pub fn new(seed: u64) -> Random {
        Random { state: seed }
    }

    /// The next one.
    pub fn number(&mut self) -> u64 {
        self.state = self.state.wrapping_add(0x9e37_79b9_7f4a_7c15);
        let mixed = (self.state ^ (self.state >> 30)).wrapping_mul(0xbf58_476d_1ce4_e5b9);
        let mixed = (mixed ^ (mixed >> 27)).wrapping_mul(0x94d0_49bb_1331_11eb);
        mixed ^ (mixed >> 31)
    }

    /// The next one below a bound, or 0 where that is 0.
    pub fn below(&mut self, bound: u64) -> u64 {
        self.number().checked_rem(bound).unwrap_or(0)
    }

    /// A place in a list of so many items, or 0 where it has none.
    pub fn place(&mut self, count: usize) -> usize {
        usize::try_from(self.below(count as u64)).unwrap_or(0)
    }

    /// Whether what happens once in so many times happens now.
    pub fn is_one_in(&mut self, times: u64) -> bool {
        self.below(times) == 0
    }

    /// Puts the items into a random order.
    pub fn shuffle<T>(&mut self, items: &mut [T]) {
        for last in 1..items.len() {
            let other = self.place(last + 1);
            if other < last && last < items.len() {
                items.swap(other, last);
            }
        }
    }
}
