//! The shape of a table, and where its words stand.
//! Word c is the number of publications of chain c. The floors follow: a chain's heights up to its floor are gone.
//! Then come the rows, a ring for each chain, each row of four words of root and one of time.
ghost use Rattle.std.specs.Prelude.{◌≡◌, ◌+◌, ◌-◌, ◌^◌, ◌<◌, min};

use crate::row::ROW_LEN;

/// How many chains there are, how many rows of each are kept, and how many each may publish.
#[derive(Clone, Copy)]
pub struct Shape {
    pub chains: u8,
    pub window: u64,
    pub capacity: u64,
}

impl Shape {
    ghost use Rattle.ibc_root_table.specs.Layout.{table_size, place};

    /// How many words a table has, or the largest number where that is larger.
    pub(crate) fn word_count(self) -> usize
        ensures { result ≡ min (table_size self) (2 ^ 64 - 1) }
    {
        let rows = u128::from(self.chains) * u128::from(self.window);
        let words = 2 * u128::from(self.chains) + rows * ROW_LEN as u128;
        usize::try_from(words).unwrap_or(usize::MAX)
    }

    /// Where the chain's floor stands.
    pub(crate) fn floor_word(self, chain: u8) -> usize
        ensures { result ≡ self.chains + chain }
    {
        usize::from(self.chains) + usize::from(chain)
    }

    /// Where a part of a chain's row stands, the rows counted from 0.
    pub(crate) fn row_word(self, chain: u8, row: u64, part: usize) -> usize
        requires ring { 0 < self.window }
        requires fits { table_size self < 2 ^ 63 }
        requires inside { (chain < self.chains) × (part < 5) }
        ensures { result ≡ place self chain row part }
    {
        let slot = usize::from(chain) * self.window as usize + (row % self.window) as usize;
        2 * usize::from(self.chains) + slot * ROW_LEN + part
    }
}
