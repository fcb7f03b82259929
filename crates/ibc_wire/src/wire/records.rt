//! How the records of clients, connections and channels are spelled.

ghost use Rattle.std.specs.Prelude.{◌==◌, ◌∷◌, [], codes};
ghost use Rattle.ibc_wire.specs.Fields.{one_byte};
ghost use Rattle.ibc_wire.specs.Spelling.{client_state_fields, connection_end_fields, channel_end_fields, connection_state_number, channel_state_number, order_number};
ghost use Rattle.ibc_wire.specs.Fronts.{Gives, coded_at_front, same_at_front};
ghost use Rattle.ibc_wire.specs.RecordFronts.{client_state_at_front, connection_end_at_front, channel_end_at_front, connection_state_of, channel_state_of, order_of};

use crate::fields::{
    read_n8, read_name, read_peer, read_text, read_u8, write_n8, write_name, write_peer,
    write_text, write_u8,
};
use crate::{ChannelEnd, ChannelState, ClientState, ConnectionEnd, ConnectionState, Order, Wire};
use ibc_ids::Refusal;
use std::alloc::Global;

impl Wire for ClientState {
    ghost fields = { client_state_fields };

    ghost front = { client_state_at_front };

    #[tactic(auto, unfolding(crate::specs::RecordFronts::client_state_at_front))]
    fn read(_alloc: Global, bytes: &[u8]) -> Result<(ClientState, &[u8]), Refusal> {
        let (chain, rest) = read_u8(bytes)?;
        let (latest, rest) = read_n8(rest)?;
        Ok((ClientState { chain, latest }, rest))
    }

    fn write(&self, out: &mut Vec<u8>) -> Result<(), Refusal> {
        write_u8(out, self.chain)?;
        write_n8(out, self.latest)
    }

    #[tactic(auto, using(crate::proofs::RecordReaders::client_state_reader))]
    fn lemma_reads_what_is_spelled() {}
}

impl Wire for ConnectionState {
    ghost fields = { λ value. one_byte (connection_state_number value) ∷ [] };

    ghost front = { coded_at_front connection_state_of };

    fn read(_alloc: Global, bytes: &[u8]) -> Result<(ConnectionState, &[u8]), Refusal> {
        match bytes {
            [1, rest @ ..] => Ok((ConnectionState::Init, rest)),
            [2, rest @ ..] => Ok((ConnectionState::TryOpen, rest)),
            [3, rest @ ..] => Ok((ConnectionState::Open, rest)),
            _ => Err(Refusal::BadMessage),
        }
    }

    fn write(&self, out: &mut Vec<u8>) -> Result<(), Refusal> {
        match self {
            ConnectionState::Init => write_u8(out, 1),
            ConnectionState::TryOpen => write_u8(out, 2),
            ConnectionState::Open => write_u8(out, 3),
        }
    }

    #[tactic(auto, using(crate::proofs::RecordReaders::connection_state_reader))]
    fn lemma_reads_what_is_spelled() {}
}

impl Wire for ChannelState {
    ghost fields = { λ value. one_byte (channel_state_number value) ∷ [] };

    ghost front = { coded_at_front channel_state_of };

    fn read(_alloc: Global, bytes: &[u8]) -> Result<(ChannelState, &[u8]), Refusal> {
        match bytes {
            [1, rest @ ..] => Ok((ChannelState::Init, rest)),
            [2, rest @ ..] => Ok((ChannelState::TryOpen, rest)),
            [3, rest @ ..] => Ok((ChannelState::Open, rest)),
            [4, rest @ ..] => Ok((ChannelState::Closed, rest)),
            _ => Err(Refusal::BadMessage),
        }
    }

    fn write(&self, out: &mut Vec<u8>) -> Result<(), Refusal> {
        match self {
            ChannelState::Init => write_u8(out, 1),
            ChannelState::TryOpen => write_u8(out, 2),
            ChannelState::Open => write_u8(out, 3),
            ChannelState::Closed => write_u8(out, 4),
        }
    }

    #[tactic(auto, using(crate::proofs::RecordReaders::channel_state_reader))]
    fn lemma_reads_what_is_spelled() {}
}

impl Wire for Order {
    ghost fields = { λ value. one_byte (order_number value) ∷ [] };

    ghost front = { coded_at_front order_of };

    fn read(_alloc: Global, bytes: &[u8]) -> Result<(Order, &[u8]), Refusal> {
        match bytes {
            [1, rest @ ..] => Ok((Order::Unordered, rest)),
            [2, rest @ ..] => Ok((Order::Ordered, rest)),
            _ => Err(Refusal::BadMessage),
        }
    }

    fn write(&self, out: &mut Vec<u8>) -> Result<(), Refusal> {
        match self {
            Order::Unordered => write_u8(out, 1),
            Order::Ordered => write_u8(out, 2),
        }
    }

    #[tactic(auto, using(crate::proofs::RecordReaders::order_reader))]
    fn lemma_reads_what_is_spelled() {}
}

/// What stands behind the version of connections.
fn read_version(bytes: &[u8]) -> Result<&[u8], Refusal>
    ensures { Gives (λ rest. (tt, rest.now)) result (same_at_front (codes "1") bytes.now) }
{
    let (version, rest) = read_text(bytes, u16::MAX)?;
    if version == b"1".as_slice() {
        Ok(rest)
    } else {
        Err(Refusal::BadMessage)
    }
}

impl Wire for ConnectionEnd {
    ghost fields = { connection_end_fields };

    ghost front = { connection_end_at_front };

    #[tactic(auto, unfolding(crate::specs::RecordFronts::connection_end_at_front))]
    fn read(alloc: Global, bytes: &[u8]) -> Result<(ConnectionEnd, &[u8]), Refusal> {
        let (state, rest) = ConnectionState::read(alloc, bytes)?;
        let (client, rest) = read_name(alloc, rest)?;
        let (peer_client, rest) = read_name(alloc, rest)?;
        let (peer_connection, rest) = read_peer(alloc, rest, state == ConnectionState::Init)?;
        let rest = read_version(rest)?;
        Ok((
            ConnectionEnd {
                state,
                client,
                peer_client,
                peer_connection,
            },
            rest,
        ))
    }

    fn write(&self, out: &mut Vec<u8>) -> Result<(), Refusal> {
        self.state.write(out)?;
        write_name(out, &self.client)?;
        write_name(out, &self.peer_client)?;
        write_peer(
            out,
            self.state == ConnectionState::Init,
            &self.peer_connection,
        )?;
        write_text(out, b"1", u16::MAX)
    }

    #[tactic(auto, using(crate::proofs::RecordReaders::connection_end_reader))]
    fn lemma_reads_what_is_spelled() {}
}

impl Wire for ChannelEnd {
    ghost fields = { channel_end_fields };

    ghost front = { channel_end_at_front };

    #[tactic(auto, unfolding(crate::specs::RecordFronts::channel_end_at_front))]
    fn read(alloc: Global, bytes: &[u8]) -> Result<(ChannelEnd, &[u8]), Refusal> {
        let (state, rest) = ChannelState::read(alloc, bytes)?;
        let (order, rest) = Order::read(alloc, rest)?;
        let (peer_port, rest) = read_name(alloc, rest)?;
        let (peer_channel, rest) = read_peer(alloc, rest, state == ChannelState::Init)?;
        let (connection, rest) = read_name(alloc, rest)?;
        let (version, rest) = read_name(alloc, rest)?;
        Ok((
            ChannelEnd {
                state,
                order,
                peer_port,
                peer_channel,
                connection,
                version,
            },
            rest,
        ))
    }

    fn write(&self, out: &mut Vec<u8>) -> Result<(), Refusal> {
        self.state.write(out)?;
        self.order.write(out)?;
        write_name(out, &self.peer_port)?;
        write_peer(out, self.state == ChannelState::Init, &self.peer_channel)?;
        write_name(out, &self.connection)?;
        write_name(out, &self.version)
    }

    #[tactic(auto, using(crate::proofs::RecordReaders::channel_end_reader))]
    fn lemma_reads_what_is_spelled() {}
}
