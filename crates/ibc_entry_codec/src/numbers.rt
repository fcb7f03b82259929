//! Refusals by their numbers.

ghost use Rattle.std.specs.Prelude.{◌≡◌};
ghost use Rattle.ibc_entry_codec.specs.Refusals.{refusal_of};

use ibc_ids::Refusal;

/// The refusal of a number, or none where the number isn't one of 1 to 31.
pub fn refusal_of(number: u8) -> Option<Refusal>
    ensures { result ≡ refusal_of number }
{
    match number {
        1 => Some(Refusal::NoMemory),
        2 => Some(Refusal::BadName),
        3 => Some(Refusal::UnknownChain),
        4 => Some(Refusal::OwnChain),
        5 => Some(Refusal::UnknownClient),
        6 => Some(Refusal::NotPublished),
        7 => Some(Refusal::WrongHeader),
        8 => Some(Refusal::UnknownConnection),
        9 => Some(Refusal::WrongState),
        10 => Some(Refusal::WrongPeer),
        11 => Some(Refusal::NoConsensus),
        12 => Some(Refusal::BadProof),
        13 => Some(Refusal::WrongSelfClient),
        14 => Some(Refusal::UnknownPort),
        15 => Some(Refusal::UnknownChannel),
        16 => Some(Refusal::WrongOrder),
        17 => Some(Refusal::WrongVersion),
        18 => Some(Refusal::NoTimeout),
        19 => Some(Refusal::TimeoutPassed),
        20 => Some(Refusal::AlreadyReceived),
        21 => Some(Refusal::OutOfOrder),
        22 => Some(Refusal::NoCommitment),
        23 => Some(Refusal::NotTimedOut),
        24 => Some(Refusal::TooLarge),
        25 => Some(Refusal::Poor),
        26 => Some(Refusal::CloseRefused),
        27 => Some(Refusal::TimeBack),
        28 => Some(Refusal::TableFull),
        29 => Some(Refusal::NumberFull),
        30 => Some(Refusal::BadMessage),
        31 => Some(Refusal::Pruned),
        _ => None,
    }
}
