//! What is asked of a chain.
use ibc_wire::Message;

/// One event of a world: a message for a chain, or the end of a chain's block. Chains are numbered from 0.
#[derive(Drop, Debug)]
pub enum Event {
    /// The message is applied to the working block of the chain.
    Message { chain: u8, message: Message },
    /// The working block of the chain is committed and published, and the next one begins at this time.
    Block { chain: u8, next_time: u64 },
}
