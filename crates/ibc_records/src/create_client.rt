//! Making clients.

ghost use Rattle.std.specs.Prelude.{◌≡◌, ◌<◌, IfOk};
ghost use Rattle.ibc_ids.specs.Paths.{nth_client};
ghost use Rattle.ibc_records.specs.ClientReplies.{AnswersCreate};

use crate::Records;
use ibc_ids::{ClientId, Refusal, nth_client};
use ibc_wire::CreateClient;
use std::alloc::Global;

/// Makes a client on the chain numbered `chain` of `chains` (ICS 2, "createClient"). Refused, by the first check that
/// fails: `UnknownChain` where there is no chain of the client's number; `OwnChain` where it is this chain; `NumberFull`
/// where the number of the next client is 2^64 - 1; and then `NoMemory`. A refusal leaves the records.
pub fn create(
    alloc: Global,
    records: &mut Records,
    chain: u8,
    chains: u8,
    message: &CreateClient,
) -> Result<ClientId, Refusal>
    ensures answer { AnswersCreate chain chains message.now records.old result records.new }
    ensures named { IfOk result (λ id. id ≡ nth_client records.old.next_client) }
{
    if message.chain >= chains {
        return Err(Refusal::UnknownChain);
    }
    if message.chain == chain {
        return Err(Refusal::OwnChain);
    }
    let number = records.next_client();
    if number == u64::MAX {
        return Err(Refusal::NumberFull);
    }
    let id = nth_client(alloc, number)?;
    records.add_client(id.clone()?, message.chain)?;
    Ok(id)
}
