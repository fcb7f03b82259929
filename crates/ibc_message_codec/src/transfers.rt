//! How the messages of transfers and notes are spelled behind their tag.

ghost use Rattle.ibc_message_codec.specs.TransferFronts.{transfer_fields, send_note_fields, transfer_many_fields, transfer_at_front, send_note_at_front, transfer_many_at_front};

use crate::behind::{n8_behind, n16_behind, name_behind, str_behind, value_behind};
use crate::parts::write_delivery;
use crate::payload::Payload;
use ibc_ids::Refusal;
use ibc_wire::fields::{read_name, write_n8, write_n16, write_name, write_str};
use ibc_wire::{SendNote, Transfer, TransferMany, Wire};
use std::alloc::Global;

impl Payload for Transfer {
    ghost fields = { transfer_fields };

    ghost front = { transfer_at_front };

    #[tactic(auto, unfolding(crate::specs::TransferFronts::transfer_at_front))]
    fn read(alloc: Global, bytes: &[u8]) -> Result<(Transfer, &[u8]), Refusal> {
        let (fields, rest) = read_name(alloc, bytes)?;
        let (fields, rest) = name_behind(alloc, fields, rest)?;
        let (fields, rest) = name_behind(alloc, fields, rest)?;
        let (fields, rest) = n16_behind(fields, rest)?;
        let (fields, rest) = name_behind(alloc, fields, rest)?;
        let (fields, rest) = name_behind(alloc, fields, rest)?;
        let (fields, rest) = n8_behind(fields, rest)?;
        let (fields, rest) = n8_behind(fields, rest)?;
        let (
            ((((((channel, user), denom), amount), receiver), memo), timeout_height),
            timeout_time,
        ) = fields;
        Ok((
            Transfer {
                channel,
                user,
                denom,
                amount,
                receiver,
                memo,
                timeout_height,
                timeout_time,
            },
            rest,
        ))
    }

    fn write(&self, out: &mut Vec<u8>) -> Result<(), Refusal> {
        write_name(out, &self.channel)?;
        write_name(out, &self.user)?;
        write_name(out, &self.denom)?;
        write_n16(out, self.amount)?;
        write_delivery(
            out,
            &self.receiver,
            &self.memo,
            self.timeout_height,
            self.timeout_time,
        )
    }
}

impl Payload for SendNote {
    ghost fields = { send_note_fields };

    ghost front = { send_note_at_front };

    #[tactic(auto, unfolding(crate::specs::TransferFronts::send_note_at_front))]
    fn read(alloc: Global, bytes: &[u8]) -> Result<(SendNote, &[u8]), Refusal> {
        let (fields, rest) = read_name(alloc, bytes)?;
        let (fields, rest) = str_behind(alloc, fields, rest)?;
        let (fields, rest) = n8_behind(fields, rest)?;
        let (fields, rest) = n8_behind(fields, rest)?;
        let (((channel, payload), timeout_height), timeout_time) = fields;
        Ok((
            SendNote {
                channel,
                payload,
                timeout_height,
                timeout_time,
            },
            rest,
        ))
    }

    fn write(&self, out: &mut Vec<u8>) -> Result<(), Refusal> {
        write_name(out, &self.channel)?;
        write_str(out, &self.payload, u16::MAX)?;
        write_n8(out, self.timeout_height)?;
        write_n8(out, self.timeout_time)
    }
}

impl Payload for TransferMany {
    ghost fields = { transfer_many_fields };

    ghost front = { transfer_many_at_front };

    #[tactic(auto, unfolding(crate::specs::TransferFronts::transfer_many_at_front))]
    fn read(alloc: Global, bytes: &[u8]) -> Result<(TransferMany, &[u8]), Refusal> {
        let (fields, rest) = read_name(alloc, bytes)?;
        let (fields, rest) = name_behind(alloc, fields, rest)?;
        let (fields, rest) = value_behind(alloc, fields, rest)?;
        let (fields, rest) = name_behind(alloc, fields, rest)?;
        let (fields, rest) = name_behind(alloc, fields, rest)?;
        let (fields, rest) = n8_behind(fields, rest)?;
        let (fields, rest) = n8_behind(fields, rest)?;
        let ((((((channel, user), tokens), receiver), memo), timeout_height), timeout_time) =
            fields;
        Ok((
            TransferMany {
                channel,
                user,
                tokens,
                receiver,
                memo,
                timeout_height,
                timeout_time,
            },
            rest,
        ))
    }

    fn write(&self, out: &mut Vec<u8>) -> Result<(), Refusal> {
        write_name(out, &self.channel)?;
        write_name(out, &self.user)?;
        self.tokens.write(out)?;
        write_delivery(
            out,
            &self.receiver,
            &self.memo,
            self.timeout_height,
            self.timeout_time,
        )
    }
}
