//! The data of a packet of tokens.

ghost use Rattle.std.specs.Prelude.{◌≡◌, IfOk, option_map, IsOkUnless};
ghost use Rattle.ibc_ids.specs.declared.refusal.Refusal.TheVariants.{NoMemory};
ghost use Rattle.ibc_machine.specs.ics20.TokenData.{data_of, data_text};
ghost use Rattle.ibc_machine.specs.ics20.Transfers.{transfer_data, transfer_many_data};
ghost use Rattle.ibc_token_data.specs.AbstractData.{abstract_data};
ghost use Rattle.ibc_token_data.specs.FittingAmounts.{IsFittingAmount};

use crate::fault::TokenDataFault;
use crate::reading::told_by;
use crate::writing::{likely_length, spelling};
use ibc_ids::{Bytes, Denom, Memo, Receiver, Refusal, UserName, Version};
use ibc_wire::{Token, Transfer, TransferMany};
use std::alloc::{AllocError, Global};

/// What a packet of tokens says (ICS 20, "FungibleTokenPacketData"): the tokens, a memo, who receives them and who sends
/// them.
#[derive(Drop)]
pub struct TokenData {
    pub tokens: Vec<Token>,
    pub memo: Memo,
    pub receiver: Receiver,
    pub sender: UserName,
}

impl TokenData {
    /// What a transfer of one token says. Refused where a growth is.
    pub fn of_transfer(alloc: Global, message: &Transfer) -> Result<TokenData, AllocError>
        ensures { IfOk result (λ told. abstract_data told ≡ transfer_data message.now) }
    {
        let mut tokens = Vec::new(alloc);
        tokens.push(Token {
            denom: message.denom.clone()?,
            amount: message.amount,
        })?;
        Ok(TokenData {
            tokens,
            memo: message.memo.clone()?,
            receiver: message.receiver.clone()?,
            sender: message.user.clone()?,
        })
    }

    /// What a transfer of several tokens says. Refused where a growth is.
    pub fn of_transfer_many(alloc: Global, message: &TransferMany) -> Result<TokenData, AllocError>
        ensures { IfOk result (λ told. abstract_data told ≡ transfer_many_data message.now) }
    {
        Ok(TokenData {
            tokens: message.tokens.as_slice().to_vec(alloc)?,
            memo: message.memo.clone()?,
            receiver: message.receiver.clone()?,
            sender: message.user.clone()?,
        })
    }

    /// The data that the bytes spell over a channel of the version, or `None` where they aren't the one spelling of data
    /// that such a packet may have. Refused: `NoMemory`.
    #[tactic(auto, using(crate::proofs::Told::told_data))]
    pub fn read(
        alloc: Global,
        version: &Version,
        payload: &[u8],
    ) -> Result<Option<TokenData>, Refusal>
        ensures ok { IfOk result (λ told. option_map abstract_data told ≡ data_of version.now payload.now) }
        ensures err { IsOkUnless result NoMemory }
    {
        match told_by(alloc, version, payload) {
            Ok(told) => Ok(Some(told)),
            Err(TokenDataFault::NotData) => Ok(None),
            Err(TokenDataFault::NoMemory) => Err(Refusal::NoMemory),
        }
    }

    /// The one spelling of the data over a channel of the version. Refused: `NoMemory`.
    pub fn write(&self, alloc: Global, version: &Version) -> Result<Bytes, Refusal>
        ensures ok { IfOk result (λ text. text ≡ data_text version.now (abstract_data self.now)) }
        ensures err { IsOkUnless result NoMemory }
    {
        let text = spelling(alloc, version, self, likely_length(self))?;
        Ok(Bytes::from_vec(text.into_bytes()))
    }

    /// How much of a denomination the packet has, or `None` where that is more than 2^128 - 1.
    pub fn amount_of(&self, denom: &Denom) -> Option<u128>
        ensures { IsFittingAmount result denom.now (abstract_data self.now).tokens }
    {
        amount_in(self.tokens.as_slice(), denom)
    }
}

// How much of a denomination there is among tokens, or `None` where that is more than 2^128 - 1.
fn amount_in(tokens: &[Token], denom: &Denom) -> Option<u128>
    ensures { IsFittingAmount result denom.now tokens.now }
{
    let mut amount: u128 = 0;
    for token in tokens {
        if token.denom == *denom {
            let Some(more) = amount.checked_add(token.amount) else {
                return None;
            };
            amount = more;
        }
    }
    Some(amount)
}
