//! What chains publish for one another.
use std::marker::Model;

/// The root of a chain's records at a height: 32 bytes (ICS 23, "CommitmentRoot").
#[derive(Clone, Copy, Debug, PartialEq, Eq, Drop)]
pub struct Root {
    bytes: [u8; 32],
}

impl Model for Root {
    ghost use Rattle.std.specs.Prelude.{ℕ, List};

    ghost Value = { List ℕ };

    ghost view = { λ root. root.bytes };

    ghost inverse = { λ text. record { bytes = text } };
}

impl Root {
    ghost use Rattle.std.specs.Prelude.{◌≡◌, length};

    /// The root of these 32 bytes.
    pub fn from_bytes(bytes: [u8; 32]) -> Root
        ensures { result ≡ bytes }
    {
        Root { bytes }
    }

    /// The 32 bytes.
    pub fn bytes(&self) -> &[u8; 32]
        ensures value { result.now ≡ self.now }
        ensures size { length result.now ≡ 32 }
    {
        &self.bytes
    }
}

/// A height of a chain with its root and its time (ICS 2, "Consensus state"). Times are plain numbers.
#[derive(Clone, Copy, Debug, PartialEq, Eq, Drop)]
pub struct Publication {
    pub chain: u8,
    pub root: Root,
    pub time: u64,
}
