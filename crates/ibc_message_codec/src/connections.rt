//! How the messages of connections are spelled behind their tag.

ghost use Rattle.ibc_message_codec.specs.ConnectionFronts.{conn_open_init_fields, conn_open_try_fields, conn_open_ack_fields, conn_open_confirm_fields, conn_open_init_at_front, conn_open_try_at_front, conn_open_ack_at_front, conn_open_confirm_at_front};

use crate::behind::{n8_behind, name_behind, str_behind, value_behind};
use crate::parts::{write_proof, write_proofs};
use crate::payload::Payload;
use ibc_ids::Refusal;
use ibc_wire::fields::{read_name, write_name};
use ibc_wire::{ConnOpenAck, ConnOpenConfirm, ConnOpenInit, ConnOpenTry, Wire};
use std::alloc::Global;

impl Payload for ConnOpenInit {
    ghost fields = { conn_open_init_fields };

    ghost front = { conn_open_init_at_front };

    #[tactic(auto, unfolding(crate::specs::ConnectionFronts::conn_open_init_at_front))]
    fn read(alloc: Global, bytes: &[u8]) -> Result<(ConnOpenInit, &[u8]), Refusal> {
        let (fields, rest) = read_name(alloc, bytes)?;
        let (fields, rest) = name_behind(alloc, fields, rest)?;
        let (client, peer_client) = fields;
        Ok((
            ConnOpenInit {
                client,
                peer_client,
            },
            rest,
        ))
    }

    fn write(&self, out: &mut Vec<u8>) -> Result<(), Refusal> {
        write_name(out, &self.client)?;
        write_name(out, &self.peer_client)
    }
}

impl Payload for ConnOpenTry {
    ghost fields = { conn_open_try_fields };

    ghost front = { conn_open_try_at_front };

    #[tactic(auto, unfolding(crate::specs::ConnectionFronts::conn_open_try_at_front))]
    fn read(alloc: Global, bytes: &[u8]) -> Result<(ConnOpenTry, &[u8]), Refusal> {
        let (fields, rest) = read_name(alloc, bytes)?;
        let (fields, rest) = name_behind(alloc, fields, rest)?;
        let (fields, rest) = name_behind(alloc, fields, rest)?;
        let (fields, rest) = value_behind(alloc, fields, rest)?;
        let (fields, rest) = n8_behind(fields, rest)?;
        let (fields, rest) = str_behind(alloc, fields, rest)?;
        let (fields, rest) = str_behind(alloc, fields, rest)?;
        let (
            (((((client, peer_client), peer_connection), claim), height), proof_end),
            proof_client,
        ) = fields;
        Ok((
            ConnOpenTry {
                client,
                peer_client,
                peer_connection,
                claim,
                height,
                proof_end,
                proof_client,
            },
            rest,
        ))
    }

    fn write(&self, out: &mut Vec<u8>) -> Result<(), Refusal> {
        write_name(out, &self.client)?;
        write_name(out, &self.peer_client)?;
        write_name(out, &self.peer_connection)?;
        self.claim.write(out)?;
        write_proofs(out, self.height, &self.proof_end, &self.proof_client)
    }
}

impl Payload for ConnOpenAck {
    ghost fields = { conn_open_ack_fields };

    ghost front = { conn_open_ack_at_front };

    #[tactic(auto, unfolding(crate::specs::ConnectionFronts::conn_open_ack_at_front))]
    fn read(alloc: Global, bytes: &[u8]) -> Result<(ConnOpenAck, &[u8]), Refusal> {
        let (fields, rest) = read_name(alloc, bytes)?;
        let (fields, rest) = name_behind(alloc, fields, rest)?;
        let (fields, rest) = value_behind(alloc, fields, rest)?;
        let (fields, rest) = n8_behind(fields, rest)?;
        let (fields, rest) = str_behind(alloc, fields, rest)?;
        let (fields, rest) = str_behind(alloc, fields, rest)?;
        let (((((connection, peer_connection), claim), height), proof_end), proof_client) = fields;
        Ok((
            ConnOpenAck {
                connection,
                peer_connection,
                claim,
                height,
                proof_end,
                proof_client,
            },
            rest,
        ))
    }

    fn write(&self, out: &mut Vec<u8>) -> Result<(), Refusal> {
        write_name(out, &self.connection)?;
        write_name(out, &self.peer_connection)?;
        self.claim.write(out)?;
        write_proofs(out, self.height, &self.proof_end, &self.proof_client)
    }
}

impl Payload for ConnOpenConfirm {
    ghost fields = { conn_open_confirm_fields };

    ghost front = { conn_open_confirm_at_front };

    #[tactic(auto, unfolding(crate::specs::ConnectionFronts::conn_open_confirm_at_front))]
    fn read(alloc: Global, bytes: &[u8]) -> Result<(ConnOpenConfirm, &[u8]), Refusal> {
        let (fields, rest) = read_name(alloc, bytes)?;
        let (fields, rest) = n8_behind(fields, rest)?;
        let (fields, rest) = str_behind(alloc, fields, rest)?;
        let ((connection, height), proof) = fields;
        Ok((
            ConnOpenConfirm {
                connection,
                height,
                proof,
            },
            rest,
        ))
    }

    fn write(&self, out: &mut Vec<u8>) -> Result<(), Refusal> {
        write_name(out, &self.connection)?;
        write_proof(out, self.height, &self.proof)
    }
}
