//! The data of a packet of tokens as its one JSON spelling (ICS 20, "FungibleTokenPacketData").
#![tactic(auto)]

mod cutting;
mod fault;
mod forms;
mod reading;
mod token_data;
mod writing;

pub use forms::are_few_and_rising;
pub use token_data::TokenData;
