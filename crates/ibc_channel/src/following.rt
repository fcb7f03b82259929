//! Following the peer: an end goes where a proof shows its peer.

ghost use Rattle.std.specs.Prelude.{◌≡◌, false, IfOk};
ghost use Rattle.ibc_machine.specs.ics24.Values.{same_channel_state};
ghost use Rattle.ibc_channel.specs.FollowedPeers as plain;
ghost use Rattle.ibc_channel.specs.FollowedPeers.{require_follows};
ghost use Rattle.ibc_channel.specs.ChannelHandlers.{HandlesFollowing, JudgesFollowing};
ghost use Rattle.ibc_channel.specs.ChannelHandshake.{HasEndAt};

use crate::ends::{find_end, move_end, set_end};
use ibc_ics23_proof::NodeMemory;
use ibc_ids::{Bytes, ChannelId, PortId, Refusal};
use ibc_merkle::Proof;
use ibc_records::{
    Records, check_claim_with, claim_peer, known_connection, name_or_none, read_proof,
};
use ibc_wire::{ChannelEnd, ChannelState};
use std::alloc::Global;

/// The end of a channel goes into the state `to`, which isn't `Init`, and in which the proof shows its peer at a height.
/// Refused, by the first check that fails: `BadMessage` where the proof can't be read; `UnknownChannel`; `WrongState` where
/// the end may not follow its peer into that state; `NoConsensus` where the connection's client doesn't know the height;
/// `BadProof` where the proof doesn't show the peer's end. `NoMemory` where a growth is refused. A refusal leaves the
/// records.
pub fn follow_peer(
    alloc: Global,
    records: &mut Records,
    to: ChannelState,
    port: &PortId,
    channel: &ChannelId,
    height: u64,
    proof: &Bytes,
) -> Result<(), Refusal>
    requires { same_channel_state to ChannelState.Init ≡ false }
    ensures { HandlesFollowing to port.now channel.now height proof.now records.old result records.new }
{
    let mut memory = records.take_memory();
    let answer = follow_peer_with(
        alloc,
        records,
        &mut memory,
        to,
        port,
        channel,
        height,
        proof,
    );
    records.keep_memory(memory);
    answer
}

// The same with the hashes of nodes that the records remember.
fn follow_peer_with(
    alloc: Global,
    records: &mut Records,
    memory: &mut NodeMemory,
    to: ChannelState,
    port: &PortId,
    channel: &ChannelId,
    height: u64,
    proof: &Bytes,
) -> Result<(), Refusal>
    requires { same_channel_state to ChannelState.Init ≡ false }
    ensures { HandlesFollowing to port.now channel.now height proof.now records.old result records.new }
{
    let read = read_proof(alloc, proof.as_slice())?;
    let judged = judge_following(alloc, records, memory, to, port, channel, height, &read);
    drop(read);
    set_end(records, port, channel, judged?)
}

// The checks, in their order, and the end as it will stand.
fn judge_following(
    alloc: Global,
    records: &Records,
    memory: &mut NodeMemory,
    to: ChannelState,
    port: &PortId,
    channel: &ChannelId,
    height: u64,
    proof: &Proof,
) -> Result<ChannelEnd, Refusal>
    requires { same_channel_state to ChannelState.Init ≡ false }
    ensures judged { JudgesFollowing to port.now channel.now height proof.now records.now result }
    ensures there { IfOk result (λ _. HasEndAt records.now port.now channel.now) }
{
    let mine = find_end(records, port, channel)?;
    check_follows(mine, to)?;
    let connection = known_connection(records, &mine.connection, height)?;
    let peer = name_or_none(&mine.peer_channel);
    let claim = claim_peer(alloc, mine, connection, peer, port, channel.as_str(), to)?;
    let shown = check_claim_with(records, memory, &connection.client, height, &claim, proof);
    drop(claim);
    shown?;
    move_end(mine, to)
}

// The end may follow its peer into a state, or else `WrongState`.
fn check_follows(mine: &ChannelEnd, to: ChannelState) -> Result<(), Refusal>
    ensures { result ≡ require_follows to mine.now }
{
    if may_follow(mine.state, to) {
        Ok(())
    } else {
        Err(Refusal::WrongState)
    }
}

// From `TryOpen` an end follows its peer, and from `Open` where the peer is closed.
fn may_follow(from: ChannelState, to: ChannelState) -> bool
    ensures { result ≡ plain.is_followed_from to from }
{
    match to {
        ChannelState::Closed => from == ChannelState::TryOpen || from == ChannelState::Open,
        ChannelState::Init | ChannelState::TryOpen | ChannelState::Open => {
            from == ChannelState::TryOpen
        }
    }
}
