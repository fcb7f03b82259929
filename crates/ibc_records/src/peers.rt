//! What messages of channels and packets claim of the peer's end of a channel.

ghost use Rattle.std.specs.Prelude.{◌≡◌, ◌++◌, string_bytes, IfOk, OnOk, IsOkUnless};
ghost use Rattle.ibc_ids.specs.Paths.{path};
ghost use Rattle.ibc_ids.specs.declared.key.Key.TheVariants as key;
ghost use Rattle.ibc_ids.specs.declared.refusal.Refusal.TheVariants.{NoMemory};
ghost use Rattle.ibc_records.specs.Peers.{end_bytes, text_of, ClaimsPath, ClaimsEnd, ShowsClaim};

use crate::{Records, check_path, check_path_with};
use ibc_ics23_proof::NodeMemory;
use ibc_ids::{Bytes, ClientId, Name, NameKind, PortId, Refusal, Version};
use ibc_merkle::Proof;
use ibc_wire::fields::{write_name, write_text};
use ibc_wire::{ChannelEnd, ChannelState, ConnectionEnd, Order, Wire};
use std::alloc::Global;

/// A claim of the peer's end: the path where it stands, and its bytes.
#[derive(Drop)]
pub struct PeerClaim {
    pub path: String,
    pub value: Bytes,
}

/// The claim that the peer of an own end over a connection is in a state, stands under the name `peer`, and names this
/// port and channel; it has the own order and version. A name that there isn't is empty. `NoMemory` where a growth is
/// refused.
pub fn claim_peer(
    alloc: Global,
    mine: &ChannelEnd,
    connection: &ConnectionEnd,
    peer: &str,
    port: &PortId,
    channel: &str,
    state: ChannelState,
) -> Result<PeerClaim, Refusal>
    ensures path { ClaimsPath mine.now peer.now result }
    ensures value { ClaimsEnd mine.now connection.now port.now channel.now state result }
    ensures err { IsOkUnless result NoMemory }
{
    let over = name_or_none(&connection.peer_connection);
    let value = end_value(alloc, state, mine.order, port, channel, over, &mine.version)?;
    let path = end_path(alloc, &mine.peer_port, peer)?;
    Ok(PeerClaim { path, value })
}

/// The chain that a client tracks had what is claimed at a height. Refused, by the first check that fails: `UnknownClient`;
/// `NoConsensus` where the client doesn't know the height; `BadProof`.
pub fn check_claim(
    records: &Records,
    client: &ClientId,
    height: u64,
    claim: &PeerClaim,
    proof: &Proof,
) -> Result<(), Refusal>
    ensures { ShowsClaim records.now client.now height claim.now proof.now result }
{
    let path = claim.path.as_str();
    let value = claim.value.as_slice();
    check_path(records, client, height, path, value, proof)
}

/// Checks as `check_claim`, with a memory of the hashes of nodes.
pub fn check_claim_with(
    records: &Records,
    memory: &mut NodeMemory,
    client: &ClientId,
    height: u64,
    claim: &PeerClaim,
    proof: &Proof,
) -> Result<(), Refusal>
    ensures { ShowsClaim records.now client.now height claim.now proof.now result }
{
    let path = claim.path.as_str();
    let value = claim.value.as_slice();
    check_path_with(records, memory, client, height, path, value, proof)
}

/// The text of a name, empty where there is none.
pub fn name_or_none<K: NameKind>(name: &Option<Name<K>>) -> &str
    ensures { result.now ≡ text_of name.now }
{
    match name {
        Some(name) => name.as_str(),
        None => "",
    }
}

// The path of an end of a channel.
fn end_path(alloc: Global, port: &PortId, channel: &str) -> Result<String, Refusal>
    ensures ok { IfOk result (λ text. string_bytes text ≡ path (key.ChannelEnd port.now channel.now)) }
    ensures err { IsOkUnless result NoMemory }
{
    let port = port.as_str();
    Ok(format!(in alloc; "channelEnds/ports/{port}/channels/{channel}")?)
}

// The bytes of an end with these fields (ICS 4, "ChannelEnd").
fn end_value(
    alloc: Global,
    state: ChannelState,
    order: Order,
    peer_port: &PortId,
    peer_channel: &str,
    connection: &str,
    version: &Version,
) -> Result<Bytes, Refusal>
    ensures ok { IfOk result (λ bytes. bytes ≡ end_bytes state order peer_port.now peer_channel.now connection.now version.now) }
    ensures err { IsOkUnless result NoMemory }
{
    let mut bytes = Vec::new(alloc);
    match write_end(
        &mut bytes,
        state,
        order,
        peer_port,
        peer_channel,
        connection,
        version,
    ) {
        Ok(()) => Ok(Bytes::from_vec(bytes)),
        // What is written has its form, so only a growth is refused.
        Err(_) => Err(Refusal::NoMemory),
    }
}

// Writes the fields of an end in their order.
fn write_end(
    bytes: &mut Vec<u8>,
    state: ChannelState,
    order: Order,
    peer_port: &PortId,
    peer_channel: &str,
    connection: &str,
    version: &Version,
) -> Result<(), Refusal>
    ensures { OnOk result (bytes.new.items ≡ bytes.old.items ++ end_bytes state order peer_port.now peer_channel.now connection.now version.now) }
{
    state.write(bytes)?;
    order.write(bytes)?;
    write_name(bytes, peer_port)?;
    write_text(bytes, peer_channel.as_bytes(), u16::MAX)?;
    write_text(bytes, connection.as_bytes(), u16::MAX)?;
    write_name(bytes, version)
}
