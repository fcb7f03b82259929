//! How headers are spelled in a message.

ghost use Rattle.ibc_wire.specs.RecordFronts.{header_fields, header_at_front};

use crate::fields::{read_n8, read_root, read_u8, write_n8, write_root, write_u8};
use crate::{Header, Wire};
use ibc_ids::Refusal;
use std::alloc::Global;

impl Wire for Header {
    ghost fields = { header_fields };

    ghost front = { header_at_front };

    #[tactic(auto, unfolding(crate::specs::RecordFronts::header_at_front))]
    fn read(_alloc: Global, bytes: &[u8]) -> Result<(Header, &[u8]), Refusal> {
        let (chain, rest) = read_u8(bytes)?;
        let (height, rest) = read_n8(rest)?;
        let (time, rest) = read_n8(rest)?;
        match read_root(rest) {
            Ok((root, rest)) => Ok((
                Header {
                    chain,
                    height,
                    time,
                    root,
                },
                rest,
            )),
            Err(refusal) => Err(refusal),
        }
    }

    fn write(&self, out: &mut Vec<u8>) -> Result<(), Refusal> {
        write_u8(out, self.chain)?;
        write_n8(out, self.height)?;
        write_n8(out, self.time)?;
        write_root(out, &self.root)
    }

    #[tactic(auto, using(crate::proofs::RecordReaders::header_reader))]
    fn lemma_reads_what_is_spelled() {}
}
