//! Checks that the messages of connections, channels and packets share.

ghost use Rattle.std.specs.Prelude.{◌≡◌, ◌⊎◌, ◌-◌, ◌^◌, ◌<◌, false, Some, is_some, IfOk, IfErr, IsErrOf};
ghost use Rattle.ibc_machine.specs.ics24.Evidence.{require_known, require_number};
ghost use Rattle.ibc_wire.specs.Reading.{proof_of};
ghost use Rattle.ibc_records.specs.RecordsModel.{core_of};
ghost use Rattle.ibc_records.specs.ProofVerdicts.{require_client};
ghost use Rattle.ibc_records.specs.OwnEnds.{IsConnectionAt, KnowsHeight, PassesKnown, FailsKnown};

use crate::{Records, knows};
use ibc_ids::{ClientId, ConnectionId, Refusal};
use ibc_merkle::Proof;
use ibc_wire::{ConnectionEnd, decode, lemma_proofs_are_read_as_they_are_spelled};
use std::alloc::Global;

/// The proof that the bytes spell. Refused: `BadMessage` exactly where they spell none; `NoMemory`.
pub fn read_proof(alloc: Global, bytes: &[u8]) -> Result<Proof, Refusal>
    ensures ok { IfOk result (λ proof. proof_of bytes.now ≡ Some proof) }
    ensures bad { IsErrOf result Refusal.BadMessage → is_some (proof_of bytes.now) ≡ false }
    ensures err { IfErr result (λ e. (e ≡ Refusal.BadMessage) ⊎ (e ≡ Refusal.NoMemory)) }
{
    lemma_proofs_are_read_as_they_are_spelled();
    decode(alloc, bytes)
}

/// There is such a client, or else `UnknownClient`.
pub fn check_client(records: &Records, client: &ClientId) -> Result<(), Refusal>
    ensures { result ≡ require_client (core_of records.now) client.now }
{
    match records.client(client) {
        Some(_) => Ok(()),
        None => Err(Refusal::UnknownClient),
    }
}

/// The client knows the height, or else `NoConsensus`.
pub fn check_known(records: &Records, client: &ClientId, height: u64) -> Result<(), Refusal>
    ensures { result ≡ require_known (core_of records.now) client.now height }
{
    if knows(records, client, height) {
        Ok(())
    } else {
        Err(Refusal::NoConsensus)
    }
}

/// The connection, whose client knows the height, or else `NoConsensus`. Where there is no such connection the client of
/// the empty name is asked, which no chain has.
pub fn known_connection<'a>(
    records: &'a Records,
    connection: &ConnectionId,
    height: u64,
) -> Result<&'a ConnectionEnd, Refusal>
    ensures there { IfOk result (λ end. IsConnectionAt records.now connection.now end.now) }
    ensures known { IfOk result (λ end. KnowsHeight records.now end.now.client height) }
    ensures passed { PassesKnown records.now connection.now height result }
    ensures failed { FailsKnown records.now connection.now height result }
{
    records.lemma_names_have_form();
    let Some(end) = records.connection(connection) else {
        return Err(Refusal::NoConsensus);
    };
    check_known(records, &end.client, height)?;
    Ok(end)
}

/// A number that counts up isn't the last, or else `NumberFull`.
pub fn check_number(number: u64) -> Result<(), Refusal>
    ensures checked { result ≡ require_number number }
    ensures free { IfOk result (λ _. number < 2 ^ 64 - 1) }
{
    if number == u64::MAX {
        Err(Refusal::NumberFull)
    } else {
        Ok(())
    }
}
