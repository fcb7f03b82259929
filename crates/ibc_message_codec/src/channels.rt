//! How the messages of channels are spelled behind their tag.

ghost use Rattle.ibc_message_codec.specs.ChannelFronts.{chan_open_init_fields, chan_open_try_fields, chan_open_ack_fields, chan_open_confirm_fields, chan_close_init_fields, chan_close_confirm_fields, chan_open_init_at_front, chan_open_try_at_front, chan_open_ack_at_front, chan_open_confirm_at_front, chan_close_init_at_front, chan_close_confirm_at_front};
ghost use Rattle.ibc_message_codec.specs.WrittenParts.{WritesOpening};

use crate::behind::{n8_behind, name_behind, str_behind, value_behind};
use crate::parts::write_proof;
use crate::payload::Payload;
use ibc_ids::{ConnectionId, PortId, Refusal};
use ibc_wire::fields::{read_name, write_name};
use ibc_wire::{
    ChanCloseConfirm, ChanCloseInit, ChanOpenAck, ChanOpenConfirm, ChanOpenInit, ChanOpenTry,
    Order, Wire,
};
use std::alloc::Global;

impl Payload for ChanOpenInit {
    ghost fields = { chan_open_init_fields };

    ghost front = { chan_open_init_at_front };

    #[tactic(auto, unfolding(crate::specs::ChannelFronts::chan_open_init_at_front))]
    fn read(alloc: Global, bytes: &[u8]) -> Result<(ChanOpenInit, &[u8]), Refusal> {
        let (fields, rest) = read_name(alloc, bytes)?;
        let (fields, rest) = value_behind(alloc, fields, rest)?;
        let (fields, rest) = name_behind(alloc, fields, rest)?;
        let (fields, rest) = name_behind(alloc, fields, rest)?;
        let (fields, rest) = name_behind(alloc, fields, rest)?;
        let ((((port, order), connection), peer_port), version) = fields;
        Ok((
            ChanOpenInit {
                port,
                order,
                connection,
                peer_port,
                version,
            },
            rest,
        ))
    }

    fn write(&self, out: &mut Vec<u8>) -> Result<(), Refusal> {
        write_opening(
            out,
            &self.port,
            &self.order,
            &self.connection,
            &self.peer_port,
        )?;
        write_name(out, &self.version)
    }
}

impl Payload for ChanOpenTry {
    ghost fields = { chan_open_try_fields };

    ghost front = { chan_open_try_at_front };

    #[tactic(auto, unfolding(crate::specs::ChannelFronts::chan_open_try_at_front))]
    fn read(alloc: Global, bytes: &[u8]) -> Result<(ChanOpenTry, &[u8]), Refusal> {
        let (fields, rest) = read_name(alloc, bytes)?;
        let (fields, rest) = value_behind(alloc, fields, rest)?;
        let (fields, rest) = name_behind(alloc, fields, rest)?;
        let (fields, rest) = name_behind(alloc, fields, rest)?;
        let (fields, rest) = name_behind(alloc, fields, rest)?;
        let (fields, rest) = name_behind(alloc, fields, rest)?;
        let (fields, rest) = n8_behind(fields, rest)?;
        let (fields, rest) = str_behind(alloc, fields, rest)?;
        let (((((((port, order), connection), peer_port), peer_channel), version), height), proof) =
            fields;
        Ok((
            ChanOpenTry {
                port,
                order,
                connection,
                peer_port,
                peer_channel,
                version,
                height,
                proof,
            },
            rest,
        ))
    }

    fn write(&self, out: &mut Vec<u8>) -> Result<(), Refusal> {
        write_opening(
            out,
            &self.port,
            &self.order,
            &self.connection,
            &self.peer_port,
        )?;
        write_name(out, &self.peer_channel)?;
        write_name(out, &self.version)?;
        write_proof(out, self.height, &self.proof)
    }
}

impl Payload for ChanOpenAck {
    ghost fields = { chan_open_ack_fields };

    ghost front = { chan_open_ack_at_front };

    #[tactic(auto, unfolding(crate::specs::ChannelFronts::chan_open_ack_at_front))]
    fn read(alloc: Global, bytes: &[u8]) -> Result<(ChanOpenAck, &[u8]), Refusal> {
        let (fields, rest) = read_name(alloc, bytes)?;
        let (fields, rest) = name_behind(alloc, fields, rest)?;
        let (fields, rest) = name_behind(alloc, fields, rest)?;
        let (fields, rest) = n8_behind(fields, rest)?;
        let (fields, rest) = str_behind(alloc, fields, rest)?;
        let ((((port, channel), peer_channel), height), proof) = fields;
        Ok((
            ChanOpenAck {
                port,
                channel,
                peer_channel,
                height,
                proof,
            },
            rest,
        ))
    }

    fn write(&self, out: &mut Vec<u8>) -> Result<(), Refusal> {
        write_name(out, &self.port)?;
        write_name(out, &self.channel)?;
        write_name(out, &self.peer_channel)?;
        write_proof(out, self.height, &self.proof)
    }
}

impl Payload for ChanOpenConfirm {
    ghost fields = { chan_open_confirm_fields };

    ghost front = { chan_open_confirm_at_front };

    #[tactic(auto, unfolding(crate::specs::ChannelFronts::chan_open_confirm_at_front))]
    fn read(alloc: Global, bytes: &[u8]) -> Result<(ChanOpenConfirm, &[u8]), Refusal> {
        let (fields, rest) = read_name(alloc, bytes)?;
        let (fields, rest) = name_behind(alloc, fields, rest)?;
        let (fields, rest) = n8_behind(fields, rest)?;
        let (fields, rest) = str_behind(alloc, fields, rest)?;
        let (((port, channel), height), proof) = fields;
        Ok((
            ChanOpenConfirm {
                port,
                channel,
                height,
                proof,
            },
            rest,
        ))
    }

    fn write(&self, out: &mut Vec<u8>) -> Result<(), Refusal> {
        write_name(out, &self.port)?;
        write_name(out, &self.channel)?;
        write_proof(out, self.height, &self.proof)
    }
}

impl Payload for ChanCloseInit {
    ghost fields = { chan_close_init_fields };

    ghost front = { chan_close_init_at_front };

    #[tactic(auto, unfolding(crate::specs::ChannelFronts::chan_close_init_at_front))]
    fn read(alloc: Global, bytes: &[u8]) -> Result<(ChanCloseInit, &[u8]), Refusal> {
        let (fields, rest) = read_name(alloc, bytes)?;
        let (fields, rest) = name_behind(alloc, fields, rest)?;
        let (port, channel) = fields;
        Ok((ChanCloseInit { port, channel }, rest))
    }

    fn write(&self, out: &mut Vec<u8>) -> Result<(), Refusal> {
        write_name(out, &self.port)?;
        write_name(out, &self.channel)
    }
}

impl Payload for ChanCloseConfirm {
    ghost fields = { chan_close_confirm_fields };

    ghost front = { chan_close_confirm_at_front };

    #[tactic(auto, unfolding(crate::specs::ChannelFronts::chan_close_confirm_at_front))]
    fn read(alloc: Global, bytes: &[u8]) -> Result<(ChanCloseConfirm, &[u8]), Refusal> {
        let (fields, rest) = read_name(alloc, bytes)?;
        let (fields, rest) = name_behind(alloc, fields, rest)?;
        let (fields, rest) = n8_behind(fields, rest)?;
        let (fields, rest) = str_behind(alloc, fields, rest)?;
        let (((port, channel), height), proof) = fields;
        Ok((
            ChanCloseConfirm {
                port,
                channel,
                height,
                proof,
            },
            rest,
        ))
    }

    fn write(&self, out: &mut Vec<u8>) -> Result<(), Refusal> {
        write_name(out, &self.port)?;
        write_name(out, &self.channel)?;
        write_proof(out, self.height, &self.proof)
    }
}

// Writes the port of a channel, its order, its connection, and the peer's port.
fn write_opening(
    out: &mut Vec<u8>,
    port: &PortId,
    order: &Order,
    connection: &ConnectionId,
    peer_port: &PortId,
) -> Result<(), Refusal>
    ensures { WritesOpening port.now order.now connection.now peer_port.now out.old result out.new }
{
    write_name(out, port)?;
    order.write(out)?;
    write_name(out, connection)?;
    write_name(out, peer_port)
}
