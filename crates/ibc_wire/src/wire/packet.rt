//! How packets are spelled.

ghost use Rattle.ibc_wire.specs.Spelling.{packet_fields};
ghost use Rattle.ibc_wire.specs.RecordFronts.{packet_at_front};

use crate::fields::{read_n8, read_name, read_str, write_n8, write_name, write_str};
use crate::{Packet, Wire};
use ibc_ids::Refusal;
use std::alloc::Global;

impl Wire for Packet {
    ghost fields = { packet_fields };

    ghost front = { packet_at_front };

    #[tactic(auto, unfolding(crate::specs::RecordFronts::packet_at_front))]
    fn read(alloc: Global, bytes: &[u8]) -> Result<(Packet, &[u8]), Refusal> {
        let (sequence, rest) = read_n8(bytes)?;
        let (timeout_height, rest) = read_n8(rest)?;
        let (timeout_time, rest) = read_n8(rest)?;
        let (source_port, rest) = read_name(alloc, rest)?;
        let (source_channel, rest) = read_name(alloc, rest)?;
        let (destination_port, rest) = read_name(alloc, rest)?;
        let (destination_channel, rest) = read_name(alloc, rest)?;
        let (payload, rest) = read_str(alloc, rest, u16::MAX)?;
        Ok((
            Packet {
                sequence,
                timeout_height,
                timeout_time,
                source_port,
                source_channel,
                destination_port,
                destination_channel,
                payload,
            },
            rest,
        ))
    }

    fn write(&self, out: &mut Vec<u8>) -> Result<(), Refusal> {
        write_n8(out, self.sequence)?;
        write_n8(out, self.timeout_height)?;
        write_n8(out, self.timeout_time)?;
        write_name(out, &self.source_port)?;
        write_name(out, &self.source_channel)?;
        write_name(out, &self.destination_port)?;
        write_name(out, &self.destination_channel)?;
        write_str(out, &self.payload, u16::MAX)
    }

    #[tactic(auto, using(crate::proofs::RecordReaders::packet_reader))]
    fn lemma_reads_what_is_spelled() {}
}
