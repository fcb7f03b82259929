//! Scripts: how a world begins, and the steps that are run in it.

ghost use Rattle.std.specs.Prelude.{◌≡◌, ◌≤◌, length, All};
ghost use Rattle.std.proofs.Props.{props};
ghost use Rattle.ibc_script.specs.Scripts.{IsAmong, IsProp-IsAmong};

use crate::{Application, ChainName, Draft};
use ibc_ids::{ChannelId, Denom, Key};
use ibc_machine::Genesis;

/// A script has at most so many bytes.
pub const MOST_BYTES: usize = 1_048_576;

/// A script names at most so many chains.
pub const MOST_CHAINS: usize = 8;

/// A step relays for at most so many turns.
pub const MOST_TURNS: u16 = 1_000;

/// A script has at most so many steps.
pub const MOST_STEPS: usize = 10_000;

/// A step of a script. Chains are numbers: their places in the script, from 0.
#[derive(Drop)]
pub enum Step {
    /// The chain is sent a message.
    Message {
        on: u8,
        draft: Draft,
    },
    /// The chain's working block ends. The next one has this time, or the same where it is `None`.
    Block {
        on: u8,
        time: Option<u64>,
    },
    /// The root of a height is printed.
    Root {
        on: u8,
        height: u64,
    },
    /// The proof of what a height has at a key is printed.
    Prove {
        on: u8,
        height: u64,
        key: Key,
    },
    /// The totals of a channel are printed: what it has of a denomination.
    Totals {
        on: u8,
        channel: ChannelId,
        denom: Denom,
    },
    /// A client, a connection and a channel of the application are made between two different chains. The first
    /// begins the handshakes.
    Open {
        first: u8,
        second: u8,
        application: Application,
    },
    /// Two different chains are relayed between for 1 to 1,000 turns.
    Relay {
        first: u8,
        second: u8,
        turns: u16,
    },
}

/// A script: how the world begins, the names of its chains in their order, and the steps. The genesis may still be
/// one that no world begins with.
#[derive(Drop)]
pub struct Script {
    pub genesis: Genesis,
    pub names: Vec<ChainName>,
    pub steps: Vec<Step>,
    ghost named: { length names.items ≡ length genesis.chains.items },
    ghost few: { length names.items ≤ 8 },
    ghost among: { All (IsAmong (length names.items)) steps.items } by { Prim.hlevel (props, IsProp-IsAmong) },
}
