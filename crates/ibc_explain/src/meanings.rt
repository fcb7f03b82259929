//! What refusals mean.

use ibc_ids::Refusal;

/// When a refusal comes, in words.
pub fn meaning_of(refusal: Refusal) -> &'static str {
    match refusal {
        Refusal::NoMemory => "a growth was refused",
        Refusal::BadName => "a text is no name of its kind",
        Refusal::UnknownChain => "there is no such chain",
        Refusal::OwnChain => "a client of the chain itself",
        Refusal::UnknownClient => "there is no such client",
        Refusal::NotPublished => "the height isn't published yet",
        Refusal::WrongHeader => "the header isn't the one that was published",
        Refusal::UnknownConnection => "there is no such connection",
        Refusal::WrongState => "an end isn't in the state that the message asks for",
        Refusal::WrongPeer => "the packet's other end isn't the channel's peer",
        Refusal::NoConsensus => "the client doesn't know the height, or the height isn't committed",
        Refusal::BadProof => "a proof doesn't show what the message says",
        Refusal::WrongSelfClient =>
            "the claimed state of the peer's client doesn't name this chain",
        Refusal::UnknownPort => "there is no application on the port",
        Refusal::UnknownChannel => "there is no such channel",
        Refusal::WrongOrder => "the application doesn't take this order",
        Refusal::WrongVersion =>
            "the application doesn't take this version, or the channel has another one",
        Refusal::NoTimeout => "both timeouts of a packet are 0",
        Refusal::TimeoutPassed => "a timeout of the packet has passed",
        Refusal::AlreadyReceived => "the packet was received before",
        Refusal::OutOfOrder => "the packet isn't the next one of an ordered channel",
        Refusal::NoCommitment => "no commitment of the packet stands",
        Refusal::NotTimedOut => "no timeout of the packet has passed at the proved height",
        Refusal::TooLarge => "an amount or a text is too large, or is empty",
        Refusal::Poor => "an account holds too little",
        Refusal::CloseRefused => "the application doesn't let its channels be closed",
        Refusal::TimeBack => "a block's time lies before the working time",
        Refusal::TableFull => "the chain has published as many heights as it may",
        Refusal::NumberFull => "a number has reached its end, 2^64 - 1",
        Refusal::BadMessage => "a message, a genesis or bytes are not of their form",
        Refusal::Pruned =>
            "the height is published, and gone from the window of heights that are kept",
    }
}
