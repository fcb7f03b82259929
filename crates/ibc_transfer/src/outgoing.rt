//! What the messages of transfers send.

ghost use Rattle.std.specs.Prelude.{◌≡◌, not, IfOk, IsOkUnless};
ghost use Rattle.std.specs.List.{list_any};
ghost use Rattle.ibc_ids.specs.declared.refusal.Refusal.TheVariants.{NoMemory};
ghost use Rattle.ibc_machine.specs.ics20.Transfers.{is_zero};
ghost use Rattle.ibc_transfer.specs.TransferChecks.{abstract_outgoing, one_outgoing, many_outgoing};

use crate::leaving::send_moves;
use crate::names::{one_token, several_tokens};
use ibc_bank::Move;
use ibc_ids::{Refusal, Version};
use ibc_records::{Commitment, has_size};
use ibc_token_data::TokenData;
use ibc_wire::{Token, Transfer, TransferMany};
use std::alloc::Global;

/// What a message sends.
#[derive(Drop)]
pub(crate) struct Outgoing {
    /// The version that its channel has to have.
    pub(crate) version: Version,
    /// Whether its amounts are above 0, and its payload has the size of payloads.
    pub(crate) fits: bool,
    /// The moves of its tokens.
    pub(crate) moves: Vec<Move>,
    /// What is committed of its packet.
    pub(crate) commitment: Commitment,
}

impl Outgoing {
    /// What a transfer of one token sends. Refused: `NoMemory`.
    pub(crate) fn of_transfer(alloc: Global, message: &Transfer) -> Result<Outgoing, Refusal>
        ensures ok { IfOk result (λ parcel. abstract_outgoing parcel ≡ one_outgoing message.now) }
        ensures err { IsOkUnless result NoMemory }
    {
        let data = TokenData::of_transfer(alloc, message)?;
        let version = one_token(alloc)?;
        let payload = data.write(alloc, &version)?;
        let moves = send_moves(
            alloc,
            &message.channel,
            &data.sender,
            data.tokens.as_slice(),
        )?;
        Ok(Outgoing {
            version,
            fits: message.amount != 0,
            moves,
            commitment: Commitment {
                payload,
                timeout_height: message.timeout_height,
                timeout_time: message.timeout_time,
            },
        })
    }

    /// What a transfer of several tokens sends. Refused: `NoMemory`.
    pub(crate) fn of_transfer_many(
        alloc: Global,
        message: &TransferMany,
    ) -> Result<Outgoing, Refusal>
        ensures ok { IfOk result (λ parcel. abstract_outgoing parcel ≡ many_outgoing message.now) }
        ensures err { IsOkUnless result NoMemory }
    {
        let data = TokenData::of_transfer_many(alloc, message)?;
        let version = several_tokens(alloc)?;
        let payload = data.write(alloc, &version)?;
        let moves = send_moves(
            alloc,
            &message.channel,
            &data.sender,
            data.tokens.as_slice(),
        )?;
        Ok(Outgoing {
            version,
            fits: are_above_zero(message.tokens.as_slice()) && has_size(payload.as_slice()),
            moves,
            commitment: Commitment {
                payload,
                timeout_height: message.timeout_height,
                timeout_time: message.timeout_time,
            },
        })
    }
}

// Whether no amount is 0.
fn are_above_zero(tokens: &[Token]) -> bool
    ensures { result ≡ not (list_any is_zero tokens.now) }
{
    !tokens.iter().any(|token| token.amount == 0)
}
