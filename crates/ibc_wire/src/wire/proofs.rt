//! How proofs are spelled.

ghost use Rattle.std.specs.Prelude.{◌∷◌, length};
ghost use Rattle.std.specs.List.{flat_map};
ghost use Rattle.ibc_wire.specs.Fields.{count_between};
ghost use Rattle.ibc_wire.specs.Spelling.{operation_fields, presence_fields, neighbour_fields, proof_fields};
ghost use Rattle.ibc_wire.specs.Reading.{operation_at_front, operations_at_front, presence_at_front, neighbour_at_front};
ghost use Rattle.ibc_wire.specs.Fronts.{Gives, Writes};
ghost use Rattle.ibc_wire.specs.RecordFronts.{absence_fields, absence_at_front, proof_at_front};

use super::many::{read_many, write_many, write_tagged};
use crate::Wire;
use crate::fields::{read_affix, read_str, read_u8, write_affix, write_count, write_str, write_u8};
use ibc_ids::Refusal;
use ibc_merkle::{Absence, Operation, Operations, Presence, Proof};
use std::alloc::Global;

/// The most operations of a proof.
const MOST_OPERATIONS: u8 = 64;

/// The most bytes of a key.
const MOST_KEY: u16 = 256;

/// The most bytes of a value.
const MOST_VALUE: u16 = 512;

/// The most bytes of a prefix or a suffix.
const MOST_AFFIX: u16 = 64;

impl Wire for Operation {
    ghost fields = { operation_fields };

    ghost front = { operation_at_front };

    fn read(alloc: Global, bytes: &[u8]) -> Result<(Operation, &[u8]), Refusal> {
        let (prefix, rest) = read_affix(alloc, bytes, MOST_AFFIX)?;
        let (suffix, rest) = read_affix(alloc, rest, MOST_AFFIX)?;
        Ok((Operation { prefix, suffix }, rest))
    }

    fn write(&self, out: &mut Vec<u8>) -> Result<(), Refusal> {
        write_affix(out, &self.prefix, MOST_AFFIX)?;
        write_affix(out, &self.suffix, MOST_AFFIX)
    }

    #[tactic(auto, using(crate::proofs::ProofReaders::operation_reader))]
    fn lemma_reads_what_is_spelled() {}
}

/// So many operations, and what stands behind them.
#[tactic(auto, using(crate::proofs::ProofReaders::operations_are_many))]
fn read_operations(alloc: Global, bytes: &[u8], count: u8) -> Result<(Operations, &[u8]), Refusal>
    ensures { Gives (λ x. (x.0, x.1.now)) result (operations_at_front count bytes.now) }
{
    let (operations, rest) = read_many::<Operation>(alloc, bytes, count)?;
    Ok((Operations::from_vec(operations), rest))
}

/// Writes operations behind their number.
fn write_operations(out: &mut Vec<u8>, operations: &Operations) -> Result<(), Refusal>
    ensures { Writes (count_between 0 64 (length operations.now) ∷ flat_map operation_fields operations.now) out.old.items result out.new.items }
{
    let items = operations.as_slice();
    write_count(out, items.len(), 0, MOST_OPERATIONS)?;
    write_many(out, items)
}

impl Wire for Presence {
    ghost fields = { presence_fields };

    ghost front = { presence_at_front };

    fn read(alloc: Global, bytes: &[u8]) -> Result<(Presence, &[u8]), Refusal> {
        let (key, rest) = read_str(alloc, bytes, MOST_KEY)?;
        let (value, rest) = read_str(alloc, rest, MOST_VALUE)?;
        let (leaf_prefix, rest) = read_affix(alloc, rest, MOST_AFFIX)?;
        let (count, rest) = read_u8(rest)?;
        if count > MOST_OPERATIONS {
            return Err(Refusal::BadMessage);
        }
        let (operations, rest) = read_operations(alloc, rest, count)?;
        Ok((
            Presence {
                key,
                value,
                leaf_prefix,
                operations,
            },
            rest,
        ))
    }

    fn write(&self, out: &mut Vec<u8>) -> Result<(), Refusal> {
        write_str(out, &self.key, MOST_KEY)?;
        write_str(out, &self.value, MOST_VALUE)?;
        write_affix(out, &self.leaf_prefix, MOST_AFFIX)?;
        write_operations(out, &self.operations)
    }

    #[tactic(auto, using(crate::proofs::ProofReaders::presence_reader))]
    fn lemma_reads_what_is_spelled() {}
}

/// A neighbour behind a flag, and what stands behind it.
fn read_neighbour(alloc: Global, bytes: &[u8]) -> Result<(Option<Presence>, &[u8]), Refusal>
    ensures { Gives (λ x. (x.0, x.1.now)) result (neighbour_at_front bytes.now) }
{
    match bytes {
        [0, rest @ ..] => Ok((None, rest)),
        [1, rest @ ..] => {
            let (presence, rest) = Presence::read(alloc, rest)?;
            Ok((Some(presence), rest))
        }
        _ => Err(Refusal::BadMessage),
    }
}

/// Writes a neighbour behind a flag.
fn write_neighbour(out: &mut Vec<u8>, neighbour: &Option<Presence>) -> Result<(), Refusal>
    ensures { Writes (neighbour_fields neighbour.now) out.old.items result out.new.items }
{
    match neighbour {
        None => write_u8(out, 0),
        Some(presence) => write_tagged(out, 1, presence),
    }
}

impl Wire for Absence {
    ghost fields = { absence_fields };

    ghost front = { absence_at_front };

    #[tactic(auto, unfolding(crate::specs::RecordFronts::absence_at_front))]
    fn read(alloc: Global, bytes: &[u8]) -> Result<(Absence, &[u8]), Refusal> {
        let (key, rest) = read_str(alloc, bytes, MOST_KEY)?;
        let (left, rest) = read_neighbour(alloc, rest)?;
        let (right, rest) = read_neighbour(alloc, rest)?;
        Ok((Absence { key, left, right }, rest))
    }

    fn write(&self, out: &mut Vec<u8>) -> Result<(), Refusal> {
        write_str(out, &self.key, MOST_KEY)?;
        write_neighbour(out, &self.left)?;
        write_neighbour(out, &self.right)
    }

    #[tactic(auto, using(crate::proofs::ProofReaders::absence_reader))]
    fn lemma_reads_what_is_spelled() {}
}

impl Wire for Proof {
    ghost fields = { proof_fields };

    ghost front = { proof_at_front };

    #[tactic(auto, unfolding(crate::specs::RecordFronts::proof_at_front, crate::specs::RecordFronts::absence_at_front))]
    fn read(alloc: Global, bytes: &[u8]) -> Result<(Proof, &[u8]), Refusal> {
        match bytes {
            [1, rest @ ..] => {
                let (presence, rest) = Presence::read(alloc, rest)?;
                Ok((Proof::Present(presence), rest))
            }
            [2, rest @ ..] => {
                let (absence, rest) = Absence::read(alloc, rest)?;
                Ok((Proof::Absent(absence), rest))
            }
            _ => Err(Refusal::BadMessage),
        }
    }

    fn write(&self, out: &mut Vec<u8>) -> Result<(), Refusal> {
        match self {
            Proof::Present(presence) => write_tagged(out, 1, presence),
            Proof::Absent(absence) => write_tagged(out, 2, absence),
        }
    }

    #[tactic(auto, using(crate::proofs::ProofReaders::proof_reader))]
    fn lemma_reads_what_is_spelled() {}
}
