//! Why a call is refused.

ghost use Rattle.std.specs.Prelude.{◌≡◌};
ghost use Rattle.ibc_ids.specs.Refusals.{number_of};
ghost use Rattle.ibc_ids.specs.declared.refusal.Refusal.TheVariants.{NoMemory};

use std::alloc::{AllocError, AllocFailed};
use thiserror::Error;

/// Why a message, a block or a call is refused. After a refusal the state is as before.
#[derive(Clone, Copy, Debug, PartialEq, Eq, PartialOrd, Ord, Hash, Error)]
pub enum Refusal {
    /// A growth was refused.
    #[error("no memory")]
    NoMemory = 1,
    /// A text is no name of its kind.
    #[error("bad name")]
    BadName = 2,
    /// There is no such chain.
    #[error("unknown chain")]
    UnknownChain = 3,
    /// A client of the chain itself.
    #[error("own chain")]
    OwnChain = 4,
    /// There is no such client.
    #[error("unknown client")]
    UnknownClient = 5,
    /// The height isn't published yet.
    #[error("not published")]
    NotPublished = 6,
    /// The header isn't the one that was published.
    #[error("wrong header")]
    WrongHeader = 7,
    /// There is no such connection.
    #[error("unknown connection")]
    UnknownConnection = 8,
    /// An end isn't in the state that the message asks for.
    #[error("wrong state")]
    WrongState = 9,
    /// The packet's other end isn't the channel's peer.
    #[error("wrong peer")]
    WrongPeer = 10,
    /// The client doesn't know the height, or the height isn't committed.
    #[error("no consensus state")]
    NoConsensus = 11,
    /// A proof doesn't show what the message says.
    #[error("bad proof")]
    BadProof = 12,
    /// The claimed state of the peer's client doesn't name this chain.
    #[error("wrong self client")]
    WrongSelfClient = 13,
    /// There is no application on the port.
    #[error("unknown port")]
    UnknownPort = 14,
    /// There is no such channel.
    #[error("unknown channel")]
    UnknownChannel = 15,
    /// The application doesn't take this order.
    #[error("wrong order")]
    WrongOrder = 16,
    /// The application doesn't take this version, or the channel has another one.
    #[error("wrong version")]
    WrongVersion = 17,
    /// Both timeouts of a packet are 0.
    #[error("no timeout")]
    NoTimeout = 18,
    /// A timeout of the packet has passed.
    #[error("timeout passed")]
    TimeoutPassed = 19,
    /// The packet was received before.
    #[error("already received")]
    AlreadyReceived = 20,
    /// The packet isn't the next one of an ordered channel.
    #[error("out of order")]
    OutOfOrder = 21,
    /// No commitment of the packet stands.
    #[error("no commitment")]
    NoCommitment = 22,
    /// No timeout of the packet has passed at the proved height.
    #[error("not timed out")]
    NotTimedOut = 23,
    /// An amount or a text is too large, or is empty.
    #[error("too large")]
    TooLarge = 24,
    /// An account holds too little.
    #[error("poor")]
    Poor = 25,
    /// The application doesn't let its channels be closed.
    #[error("close refused")]
    CloseRefused = 26,
    /// A block's time lies before the working time.
    #[error("time goes back")]
    TimeBack = 27,
    /// The chain has published as many heights as it may.
    #[error("table full")]
    TableFull = 28,
    /// A number has reached its end, 2^64 - 1.
    #[error("number full")]
    NumberFull = 29,
    /// A message, a genesis or bytes are not of their form.
    #[error("bad message")]
    BadMessage = 30,
    /// The height is published, and gone from the window of heights that are kept.
    #[error("pruned")]
    Pruned = 31,
}

impl Refusal {
    /// The number by which a refusal is printed, 1 to 31.
    pub fn number(self) -> u8
        ensures { result ≡ number_of self }
    {
        self as u8
    }
}

impl From<AllocError> for Refusal {
    ghost from_gives = { λ _ e. e ≡ NoMemory };

    fn from(_e: AllocError) -> Refusal {
        Refusal::NoMemory
    }
}

impl<T: Drop> From<AllocFailed<T>> for Refusal {
    ghost from_gives = { λ _ e. e ≡ NoMemory };

    fn from(_e: AllocFailed<T>) -> Refusal {
        Refusal::NoMemory
    }
}
