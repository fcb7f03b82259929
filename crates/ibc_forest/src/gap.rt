//! Where pairs differ from those of the last commit.

/// A gap: behind so many pairs that stayed, so many pairs of the last commit are gone, and so many have come in their place.
/// Gaps follow one another: the pairs that stayed are counted from the gap before.
#[derive(Clone, Copy, Drop, Debug)]
pub struct Gap {
    /// how many pairs stayed between the gap before and this one
    pub kept: usize,
    /// how many pairs of the last commit are gone
    pub gone: usize,
    /// how many pairs have come in their place
    pub come: usize,
}
