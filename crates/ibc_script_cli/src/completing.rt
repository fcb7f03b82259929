//! The messages of steps are completed from what the chains answer.

ghost use Rattle.std.specs.Prelude.{Some, IfOk, IsOkUnless};
ghost use Rattle.ibc_script_cli.specs.Completing.{IsEncoding, IsClaim, IsProofBytesAt, IsClaimAt, IsRecord, MakesMessage, Stands};
ghost use Rattle.ibc_script_cli.specs.Completers.{findings};

mod channels;
mod clients;
mod connections;
mod packet_keys;
mod packets;

use crate::Chains;
use ibc_ids::{Bytes, ClientId, Key, Refusal};
use ibc_merkle::{Presence, Proof};
use ibc_script::{Draft, Fault, ProofSource};
use ibc_wire::{ClientState, Message, Wire, decode, encode};
use std::alloc::Global;

/// What completes the messages of a script: its chains.
#[derive(Drop)]
pub struct Completer<'r, C: Chains + Drop> {
    pub alloc: Global,
    pub chains: &'r C,
}

/// What is claimed of a client: its state, and the encoding of the proof that shows it.
#[derive(Drop)]
struct ClientClaim {
    state: ClientState,
    proof: Bytes,
}

// The record that bytes spell, `None` where there are none. They are a chain's own: only for want of memory is none read.
fn record_of<T: Wire + Drop>(alloc: Global, bytes: Option<Bytes>) -> Result<Option<T>, Fault>
    ensures is { IfOk result (IsRecord T.fields bytes) }
    ensures err { IsOkUnless result Fault.NoMemory }
{
    let Some(bytes) = bytes else {
        return Ok(None);
    };
    let record = decode(alloc, bytes.as_slice());
    drop(bytes);
    match record {
        Ok(record) => Ok(Some(record)),
        Err(refusal) => Err(Fault::no_memory(refusal)),
    }
}

/// The encoding of a proof, `None` where it has none.
fn encoding_of(alloc: Global, proof: &Proof) -> Result<Option<Bytes>, Fault>
    ensures is { IfOk result (IsEncoding (Some proof.now)) }
    ensures err { IsOkUnless result Fault.NoMemory }
{
    match encode(alloc, proof) {
        Ok(bytes) => Ok(Some(Bytes::from_vec(bytes))),
        Err(Refusal::BadMessage) => Ok(None),
        Err(_) => Err(Fault::NoMemory),
    }
}

impl<C: Chains + Drop> Completer<'_, C> {
    /// The message that a step of a chain sends, `None` where something that it needs isn't there. Fault: `NoMemory`.
    pub fn complete(&self, on: u8, draft: Draft) -> Result<Option<Message>, Fault>
        ensures made { IfOk result (MakesMessage (findings C.known self.now) on draft) }
        ensures err { IsOkUnless result Fault.NoMemory }
    {
        match draft {
            Draft::Client(draft) => Ok(Some(self.client_message(on, draft)?)),
            Draft::Connection(draft) => self.connection_message(on, draft),
            Draft::Channel(draft) => self.channel_message(on, draft),
            Draft::Packet(draft) => self.packet_message(on, draft),
        }
    }

    /// The record that a chain has at a key as it stands, `None` where there is none. Fault: `NoMemory`.
    fn standing<T: Wire + Drop>(&self, on: u8, key: Key) -> Result<Option<T>, Fault>
        ensures is { IfOk result (Stands (findings C.known self.now) T.fields on key) }
        ensures err { IsOkUnless result Fault.NoMemory }
    {
        let value = self.chains.value(on, &key);
        drop(key);
        match value {
            Ok(bytes) => record_of(self.alloc, bytes),
            Err(refusal) => Err(Fault::no_memory(refusal)),
        }
    }

    // What a chain proves of a key at a height, `None` where there is nothing.
    fn found(&self, from: ProofSource, key: Key) -> Result<Option<Proof>, Fault>
        ensures found { IfOk result ((findings C.known self.now).proof from.chain from.height key) }
        ensures err { IsOkUnless result Fault.NoMemory }
    {
        let found = self.chains.proof(from.chain, from.height, &key);
        drop(key);
        found.map_err(Fault::no_memory)
    }

    /// The encoding of the proof of a key at a height, `None` where there is none.
    pub fn proof(&self, from: ProofSource, key: Key) -> Result<Option<Bytes>, Fault>
        ensures is { IfOk result (IsProofBytesAt (findings C.known self.now) from key) }
        ensures err { IsOkUnless result Fault.NoMemory }
    {
        match self.found(from, key)? {
            Some(proof) => {
                let encoded = encoding_of(self.alloc, &proof);
                drop(proof);
                encoded
            }
            None => Ok(None),
        }
    }

    /// The state of a client at a height, with the encoding of the proof that shows it; `None` where there is none.
    fn claim(&self, from: ProofSource, client: &ClientId) -> Result<Option<ClientClaim>, Fault>
        ensures is { IfOk result (IsClaimAt (findings C.known self.now) from client.now) }
        ensures err { IsOkUnless result Fault.NoMemory }
    {
        match self.found(from, Key::ClientState(client.clone()?))? {
            Some(proof) => {
                let claim = claim_of(self.alloc, &proof);
                drop(proof);
                claim
            }
            None => Ok(None),
        }
    }
}

/// What a proof shows of a client, `None` where it shows no state.
fn claim_of(alloc: Global, proof: &Proof) -> Result<Option<ClientClaim>, Fault>
    ensures is { IfOk result (IsClaim (Some proof.now)) }
    ensures err { IsOkUnless result Fault.NoMemory }
{
    let Proof::Present(Presence { value, .. }) = proof else {
        return Ok(None);
    };
    let state = match decode(alloc, value.as_slice()) {
        Ok(state) => state,
        Err(Refusal::BadMessage) => return Ok(None),
        Err(_) => return Err(Fault::NoMemory),
    };
    match encoding_of(alloc, proof)? {
        Some(proof) => Ok(Some(ClientClaim { state, proof })),
        None => Ok(None),
    }
}
