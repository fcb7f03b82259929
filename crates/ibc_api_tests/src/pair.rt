//! Two chains with a channel of tokens between them, and what a relayer carries over it, by calls.

use ibc_ids::{Bytes, ChannelId, Key, Memo, Name, NameKind, Refusal};
use ibc_ledger::View;
use ibc_machine::{ChainStart, Event, Genesis, Reply};
use ibc_wire::{
    AckPacket, ChanOpenAck, ChanOpenConfirm, ChanOpenInit, ChanOpenTry, ClientState, ConnOpenAck,
    ConnOpenConfirm, ConnOpenInit, ConnOpenTry, CreateClient, Header, Message, Order, Packet,
    RecvPacket, Transfer, UpdateClient, encode,
};
use ibc_world_core::World;
use std::alloc::Global;
use std::process::Abort;

/// The name or denomination that a text is.
pub fn name<K: NameKind>(rt: &impl Abort, alloc: Global, text: &str) -> Name<K> {
    Name::parse(alloc, text).expect(rt, "a name")
}

/// The name of the channel at both ends.
pub fn channel(rt: &impl Abort, alloc: Global) -> ChannelId {
    name(rt, alloc, "channel-0")
}

// A chain on which a user has 1,000 of `atom`.
fn start(rt: &impl Abort, alloc: Global, user: &str) -> ChainStart {
    let balance = (name(rt, alloc, user), name(rt, alloc, "atom"), 1_000);
    ChainStart {
        time: 100,
        balances: vec![in alloc; balance].expect(rt, "memory"),
    }
}

// The world of two chains: alice has 1,000 of `atom` on chain 0, and carol on chain 1.
fn new_world(rt: &impl Abort, alloc: Global) -> World {
    let first = start(rt, alloc, "alice");
    let second = start(rt, alloc, "carol");
    let genesis = Genesis {
        capacity: 64,
        window: 64,
        chains: vec![in alloc; first, second].expect(rt, "memory"),
    };
    let world = World::new(alloc, &genesis).expect(rt, "a world");
    drop(genesis);
    world
}

// Whether an event was taken, or why it is refused.
fn answered(reply: Reply) -> Result<(), Refusal> {
    match reply {
        Reply::Ok(effect) => {
            drop(effect);
            Ok(())
        }
        Reply::No(refusal) => Err(refusal),
    }
}

// Sends a message to a chain, which takes it.
fn send(rt: &impl Abort, world: &mut World, chain: u8, message: Message) {
    let reply = world.step(Event::Message { chain, message });
    answered(reply).expect(rt, "a message that is taken");
}

// The header of the last height of a view, of which there is one.
fn header_in(rt: &impl Abort, view: &View) -> Header {
    assert!(rt; view.height() != 0);
    Header {
        chain: view.chain(),
        height: view.height(),
        time: view.time(),
        root: view.root(),
    }
}

// The header of a chain's last height, as a view shows it.
fn last_header(rt: &impl Abort, world: &World, chain: u8) -> Header {
    let ledger = world.ledger(chain).expect(rt, "a chain");
    let view = ledger.view().expect(rt, "memory");
    let header = header_in(rt, &view);
    drop(view);
    header
}

// The other one of two chains.
fn other(chain: u8) -> u8 {
    if chain == 0 { 1 } else { 0 }
}

/// Ends the working block of a chain, and tells the other chain's client of the height, which is answered.
pub fn publish(rt: &impl Abort, alloc: Global, world: &mut World, chain: u8) -> u64 {
    let reply = world.step(Event::Block {
        chain,
        next_time: 100,
    });
    answered(reply).expect(rt, "a block");
    let header = last_header(rt, world, chain);
    let height = header.height;
    let update = UpdateClient {
        client: name(rt, alloc, "inprocess-0"),
        header,
    };
    send(rt, world, other(chain), Message::UpdateClient(update));
    height
}

// The proof of what a height of a chain has at a key, as it is spelled.
fn proof(rt: &impl Abort, alloc: Global, world: &World, chain: u8, height: u64, key: Key) -> Bytes {
    let ledger = world.ledger(chain).expect(rt, "a chain");
    let proof = ledger.query_proof(height, &key).expect(rt, "a proof");
    drop(key);
    let spelled = encode(alloc, &proof).expect(rt, "memory");
    drop(proof);
    Bytes::from_vec(spelled)
}

// The proof of an end of the connection.
fn proof_of_connection(
    rt: &impl Abort,
    alloc: Global,
    world: &World,
    chain: u8,
    height: u64,
) -> Bytes {
    let key = Key::Connection(name(rt, alloc, "connection-0"));
    proof(rt, alloc, world, chain, height, key)
}

// The proof of the state of a chain's client.
fn proof_of_client(rt: &impl Abort, alloc: Global, world: &World, chain: u8, height: u64) -> Bytes {
    let key = Key::ClientState(name(rt, alloc, "inprocess-0"));
    proof(rt, alloc, world, chain, height, key)
}

// The proof of an end of the channel.
fn proof_of_channel(
    rt: &impl Abort,
    alloc: Global,
    world: &World,
    chain: u8,
    height: u64,
) -> Bytes {
    let key = Key::ChannelEnd(name(rt, alloc, "transfer"), channel(rt, alloc));
    proof(rt, alloc, world, chain, height, key)
}

// Each chain makes a client of the other, and chain 0 begins a connection.
fn begin_connection(rt: &impl Abort, alloc: Global, world: &mut World) {
    let of_second = Message::CreateClient(CreateClient { chain: 1 });
    send(rt, world, 0, of_second);
    let of_first = Message::CreateClient(CreateClient { chain: 0 });
    send(rt, world, 1, of_first);
    let init = ConnOpenInit {
        client: name(rt, alloc, "inprocess-0"),
        peer_client: name(rt, alloc, "inprocess-0"),
    };
    send(rt, world, 0, Message::ConnOpenInit(init));
}

// Chain 1 answers the connection.
fn answer_connection(rt: &impl Abort, alloc: Global, world: &mut World, height: u64) {
    let answer = ConnOpenTry {
        client: name(rt, alloc, "inprocess-0"),
        peer_client: name(rt, alloc, "inprocess-0"),
        peer_connection: name(rt, alloc, "connection-0"),
        claim: ClientState {
            chain: 1,
            latest: 0,
        },
        height,
        proof_end: proof_of_connection(rt, alloc, world, 0, height),
        proof_client: proof_of_client(rt, alloc, world, 0, height),
    };
    send(rt, world, 1, Message::ConnOpenTry(answer));
}

// Chain 0 acknowledges the connection.
fn acknowledge_connection(rt: &impl Abort, alloc: Global, world: &mut World, height: u64) {
    let ack = ConnOpenAck {
        connection: name(rt, alloc, "connection-0"),
        peer_connection: name(rt, alloc, "connection-0"),
        claim: ClientState {
            chain: 0,
            latest: 1,
        },
        height,
        proof_end: proof_of_connection(rt, alloc, world, 1, height),
        proof_client: proof_of_client(rt, alloc, world, 1, height),
    };
    send(rt, world, 0, Message::ConnOpenAck(ack));
}

// Chain 1 confirms the connection.
fn confirm_connection(rt: &impl Abort, alloc: Global, world: &mut World, height: u64) {
    let confirm = ConnOpenConfirm {
        connection: name(rt, alloc, "connection-0"),
        height,
        proof: proof_of_connection(rt, alloc, world, 0, height),
    };
    send(rt, world, 1, Message::ConnOpenConfirm(confirm));
}

// Chain 0 begins a channel.
fn begin_channel(rt: &impl Abort, alloc: Global, world: &mut World) {
    let init = ChanOpenInit {
        port: name(rt, alloc, "transfer"),
        order: Order::Unordered,
        connection: name(rt, alloc, "connection-0"),
        peer_port: name(rt, alloc, "transfer"),
        version: name(rt, alloc, "ics20-1"),
    };
    send(rt, world, 0, Message::ChanOpenInit(init));
}

// Chain 1 answers the channel.
fn answer_channel(rt: &impl Abort, alloc: Global, world: &mut World, height: u64) {
    let answer = ChanOpenTry {
        port: name(rt, alloc, "transfer"),
        order: Order::Unordered,
        connection: name(rt, alloc, "connection-0"),
        peer_port: name(rt, alloc, "transfer"),
        peer_channel: channel(rt, alloc),
        version: name(rt, alloc, "ics20-1"),
        height,
        proof: proof_of_channel(rt, alloc, world, 0, height),
    };
    send(rt, world, 1, Message::ChanOpenTry(answer));
}

// Chain 0 acknowledges the channel.
fn acknowledge_channel(rt: &impl Abort, alloc: Global, world: &mut World, height: u64) {
    let ack = ChanOpenAck {
        port: name(rt, alloc, "transfer"),
        channel: channel(rt, alloc),
        peer_channel: channel(rt, alloc),
        height,
        proof: proof_of_channel(rt, alloc, world, 1, height),
    };
    send(rt, world, 0, Message::ChanOpenAck(ack));
}

// Chain 1 confirms the channel.
fn confirm_channel(rt: &impl Abort, alloc: Global, world: &mut World, height: u64) {
    let confirm = ChanOpenConfirm {
        port: name(rt, alloc, "transfer"),
        channel: channel(rt, alloc),
        height,
        proof: proof_of_channel(rt, alloc, world, 0, height),
    };
    send(rt, world, 1, Message::ChanOpenConfirm(confirm));
}

/// The world of two chains with an OPEN channel of port `transfer` between them.
pub fn open(rt: &impl Abort, alloc: Global) -> World {
    let mut world = new_world(rt, alloc);
    begin_connection(rt, alloc, &mut world);
    let height = publish(rt, alloc, &mut world, 0);
    answer_connection(rt, alloc, &mut world, height);
    let height = publish(rt, alloc, &mut world, 1);
    acknowledge_connection(rt, alloc, &mut world, height);
    begin_channel(rt, alloc, &mut world);
    let height = publish(rt, alloc, &mut world, 0);
    confirm_connection(rt, alloc, &mut world, height);
    answer_channel(rt, alloc, &mut world, height);
    let height = publish(rt, alloc, &mut world, 1);
    acknowledge_channel(rt, alloc, &mut world, height);
    let height = publish(rt, alloc, &mut world, 0);
    confirm_channel(rt, alloc, &mut world, height);
    world
}

/// Sends 100 of a denomination from a user of a chain to one of the other.
pub fn transfer(
    rt: &impl Abort,
    alloc: Global,
    world: &mut World,
    chain: u8,
    user: &str,
    denom: &str,
    receiver: &str,
) {
    let transfer = Transfer {
        channel: channel(rt, alloc),
        user: name(rt, alloc, user),
        denom: name(rt, alloc, denom),
        amount: 100,
        receiver: name(rt, alloc, receiver),
        memo: Memo::parse(alloc, "").expect(rt, "a memo"),
        timeout_height: 1_000,
        timeout_time: 0,
    };
    send(rt, world, chain, Message::Transfer(transfer));
}

// The first packet that a chain sent over the channel.
fn first_packet(rt: &impl Abort, alloc: Global, world: &World, chain: u8) -> Packet {
    let ledger = world.ledger(chain).expect(rt, "a chain");
    let port = name(rt, alloc, "transfer");
    let channel = channel(rt, alloc);
    let packet = ledger.packet(&port, &channel, 1).expect(rt, "memory");
    drop(channel);
    drop(port);
    packet.expect(rt, "a packet")
}

/// Ends the block of a chain, and has the other one receive its first packet.
pub fn receive(rt: &impl Abort, alloc: Global, world: &mut World, from: u8) {
    let height = publish(rt, alloc, world, from);
    let key = Key::Commitment(name(rt, alloc, "transfer"), channel(rt, alloc), 1);
    let proof = proof(rt, alloc, world, from, height, key);
    let message = RecvPacket {
        packet: first_packet(rt, alloc, world, from),
        height,
        proof,
    };
    send(rt, world, other(from), Message::RecvPacket(message));
}

/// Ends the block of the chain that received the first packet, and tells its sender of the acknowledgement.
pub fn acknowledge(rt: &impl Abort, alloc: Global, world: &mut World, sender: u8, ack: &str) {
    let receiver = other(sender);
    let height = publish(rt, alloc, world, receiver);
    let key = Key::Acknowledgement(name(rt, alloc, "transfer"), channel(rt, alloc), 1);
    let proof = proof(rt, alloc, world, receiver, height, key);
    let message = AckPacket {
        packet: first_packet(rt, alloc, world, sender),
        ack: Bytes::copy_of(alloc, ack.as_bytes()).expect(rt, "memory"),
        height,
        proof,
    };
    send(rt, world, sender, Message::AckPacket(message));
}
