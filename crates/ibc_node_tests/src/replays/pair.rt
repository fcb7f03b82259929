//! A run of two chains with a channel of tokens between them, and each of its entries as it is stored.

use ibc_ids::{Bytes, ChannelId, Key, Memo, Name, NameKind};
use ibc_ledger::View;
use ibc_machine::{ChainStart, Event, Genesis, Reading, Reply};
use ibc_message_codec::{decode, encode as encode_message};
use ibc_wire::{
    AckPacket, ChanOpenAck, ChanOpenConfirm, ChanOpenInit, ChanOpenTry, ClientState, ConnOpenAck,
    ConnOpenConfirm, ConnOpenInit, ConnOpenTry, CreateClient, Header, Message, Order, Packet,
    RecvPacket, Transfer, UpdateClient, encode,
};
use ibc_world_core::World;
use std::alloc::Global;
use std::process::Abort;

/// The name or denomination that a text is.
pub fn name<K: NameKind>(rt: &impl Abort, alloc: Global, text: &str) -> Name<K> {
    Name::parse(alloc, text).expect(rt, "a name")
}

/// The name of the channel at both ends.
pub fn channel(rt: &impl Abort, alloc: Global) -> ChannelId {
    name(rt, alloc, "channel-0")
}

// A chain on which a user has 1,000 of `atom`.
fn start(rt: &impl Abort, alloc: Global, user: &str) -> ChainStart {
    let balance = (name(rt, alloc, user), name(rt, alloc, "atom"), 1_000);
    ChainStart {
        time: 100,
        balances: vec![in alloc; balance].expect(rt, "memory"),
    }
}

/// The genesis of two chains: alice has 1,000 of `atom` on chain 0, and carol on chain 1.
pub fn genesis(rt: &impl Abort, alloc: Global) -> Genesis {
    let first = start(rt, alloc, "alice");
    let second = start(rt, alloc, "carol");
    Genesis {
        capacity: 64,
        window: 64,
        chains: vec![in alloc; first, second].expect(rt, "memory"),
    }
}

/// An event as it is stored: a message by its bytes.
#[derive(Drop)]
pub enum StoredEvent {
    Message { chain: u8, bytes: Vec<u8> },
    Block { chain: u8, next_time: u64 },
}

/// An entry as it is stored.
#[derive(Drop)]
pub struct StoredEntry {
    pub event: StoredEvent,
    pub reply: Reply,
    pub reading: Option<Reading>,
}

/// A world, and what was stored of it.
#[derive(Drop)]
pub struct Run {
    pub world: World,
    pub stored: Vec<StoredEntry>,
}

// An event as it is stored.
fn store(rt: &impl Abort, alloc: Global, event: &Event) -> StoredEvent {
    match event {
        Event::Message { chain, message } => StoredEvent::Message {
            chain: *chain,
            bytes: encode_message(alloc, message)
                .ok()
                .expect(rt, "a message with its bytes"),
        },
        Event::Block { chain, next_time } => StoredEvent::Block {
            chain: *chain,
            next_time: *next_time,
        },
    }
}

/// The event that is stored.
pub fn read(rt: &impl Abort, alloc: Global, event: &StoredEvent) -> Event {
    match event {
        StoredEvent::Message { chain, bytes } => Event::Message {
            chain: *chain,
            message: decode(alloc, bytes.as_slice()).ok().expect(rt, "a message"),
        },
        StoredEvent::Block { chain, next_time } => Event::Block {
            chain: *chain,
            next_time: *next_time,
        },
    }
}

// What was read for the last entry of a chain.
fn last_reading(rt: &impl Abort, world: &World, chain: u8) -> Option<Reading> {
    let ledger = world.ledger(chain).expect(rt, "a chain");
    match ledger.history() {
        [.., last] => last.entry.reading,
        [] => None,
    }
}

// Puts an event to the world, and stores the entry.
fn put(rt: &impl Abort, alloc: Global, run: &mut Run, chain: u8, event: Event) {
    let stored = store(rt, alloc, &event);
    let reply = run.world.step(event);
    let entry = StoredEntry {
        event: stored,
        reply,
        reading: last_reading(rt, &run.world, chain),
    };
    run.stored.push(entry).ok().expect(rt, "memory");
}

/// Sends a message to a chain.
pub fn send(rt: &impl Abort, alloc: Global, run: &mut Run, chain: u8, message: Message) {
    put(rt, alloc, run, chain, Event::Message { chain, message });
}

// The header of the last height of a view, of which there is one.
fn header_in(rt: &impl Abort, view: &View) -> Header {
    assert!(rt; view.height() != 0);
    Header {
        chain: view.chain(),
        height: view.height(),
        time: view.time(),
        root: view.root(),
    }
}

// The header of a chain's last height, as a view shows it.
fn last_header(rt: &impl Abort, world: &World, chain: u8) -> Header {
    let ledger = world.ledger(chain).expect(rt, "a chain");
    let view = ledger.view().expect(rt, "memory");
    let header = header_in(rt, &view);
    drop(view);
    header
}

// The other one of two chains.
fn other(chain: u8) -> u8 {
    if chain == 0 { 1 } else { 0 }
}

// Ends the working block of a chain, and tells the other chain's client of the height, which is answered.
fn publish(rt: &impl Abort, alloc: Global, run: &mut Run, chain: u8) -> u64 {
    let block = Event::Block {
        chain,
        next_time: 100,
    };
    put(rt, alloc, run, chain, block);
    let header = last_header(rt, &run.world, chain);
    let height = header.height;
    let update = UpdateClient {
        client: name(rt, alloc, "inprocess-0"),
        header,
    };
    send(rt, alloc, run, other(chain), Message::UpdateClient(update));
    height
}

// The proof of what a height of a chain has at a key, as it is spelled.
fn proof(rt: &impl Abort, alloc: Global, world: &World, chain: u8, height: u64, key: Key) -> Bytes {
    let ledger = world.ledger(chain).expect(rt, "a chain");
    let proof = ledger.query_proof(height, &key).expect(rt, "a proof");
    drop(key);
    let spelled = encode(alloc, &proof).expect(rt, "memory");
    drop(proof);
    Bytes::from_vec(spelled)
}

// The proof of an end of the connection.
fn proof_of_connection(
    rt: &impl Abort,
    alloc: Global,
    world: &World,
    chain: u8,
    height: u64,
) -> Bytes {
    let key = Key::Connection(name(rt, alloc, "connection-0"));
    proof(rt, alloc, world, chain, height, key)
}

// The proof of the state of a chain's client.
fn proof_of_client(rt: &impl Abort, alloc: Global, world: &World, chain: u8, height: u64) -> Bytes {
    let key = Key::ClientState(name(rt, alloc, "inprocess-0"));
    proof(rt, alloc, world, chain, height, key)
}

// The proof of an end of the channel.
fn proof_of_channel(
    rt: &impl Abort,
    alloc: Global,
    world: &World,
    chain: u8,
    height: u64,
) -> Bytes {
    let key = Key::ChannelEnd(name(rt, alloc, "transfer"), channel(rt, alloc));
    proof(rt, alloc, world, chain, height, key)
}

// Each chain makes a client of the other, and chain 0 begins a connection.
fn begin_connection(rt: &impl Abort, alloc: Global, run: &mut Run) {
    let of_second = Message::CreateClient(CreateClient { chain: 1 });
    send(rt, alloc, run, 0, of_second);
    let of_first = Message::CreateClient(CreateClient { chain: 0 });
    send(rt, alloc, run, 1, of_first);
    let init = ConnOpenInit {
        client: name(rt, alloc, "inprocess-0"),
        peer_client: name(rt, alloc, "inprocess-0"),
    };
    send(rt, alloc, run, 0, Message::ConnOpenInit(init));
}

// Chain 1 answers the connection.
fn answer_connection(rt: &impl Abort, alloc: Global, run: &mut Run, height: u64) {
    let answer = ConnOpenTry {
        client: name(rt, alloc, "inprocess-0"),
        peer_client: name(rt, alloc, "inprocess-0"),
        peer_connection: name(rt, alloc, "connection-0"),
        claim: ClientState {
            chain: 1,
            latest: 0,
        },
        height,
        proof_end: proof_of_connection(rt, alloc, &run.world, 0, height),
        proof_client: proof_of_client(rt, alloc, &run.world, 0, height),
    };
    send(rt, alloc, run, 1, Message::ConnOpenTry(answer));
}

// Chain 0 acknowledges the connection.
fn acknowledge_connection(rt: &impl Abort, alloc: Global, run: &mut Run, height: u64) {
    let ack = ConnOpenAck {
        connection: name(rt, alloc, "connection-0"),
        peer_connection: name(rt, alloc, "connection-0"),
        claim: ClientState {
            chain: 0,
            latest: 1,
        },
        height,
        proof_end: proof_of_connection(rt, alloc, &run.world, 1, height),
        proof_client: proof_of_client(rt, alloc, &run.world, 1, height),
    };
    send(rt, alloc, run, 0, Message::ConnOpenAck(ack));
}

// Chain 1 confirms the connection.
fn confirm_connection(rt: &impl Abort, alloc: Global, run: &mut Run, height: u64) {
    let confirm = ConnOpenConfirm {
        connection: name(rt, alloc, "connection-0"),
        height,
        proof: proof_of_connection(rt, alloc, &run.world, 0, height),
    };
    send(rt, alloc, run, 1, Message::ConnOpenConfirm(confirm));
}

// Chain 0 begins a channel.
fn begin_channel(rt: &impl Abort, alloc: Global, run: &mut Run) {
    let init = ChanOpenInit {
        port: name(rt, alloc, "transfer"),
        order: Order::Unordered,
        connection: name(rt, alloc, "connection-0"),
        peer_port: name(rt, alloc, "transfer"),
        version: name(rt, alloc, "ics20-1"),
    };
    send(rt, alloc, run, 0, Message::ChanOpenInit(init));
}

// Chain 1 answers the channel.
fn answer_channel(rt: &impl Abort, alloc: Global, run: &mut Run, height: u64) {
    let answer = ChanOpenTry {
        port: name(rt, alloc, "transfer"),
        order: Order::Unordered,
        connection: name(rt, alloc, "connection-0"),
        peer_port: name(rt, alloc, "transfer"),
        peer_channel: channel(rt, alloc),
        version: name(rt, alloc, "ics20-1"),
        height,
        proof: proof_of_channel(rt, alloc, &run.world, 0, height),
    };
    send(rt, alloc, run, 1, Message::ChanOpenTry(answer));
}

// Chain 0 acknowledges the channel.
fn acknowledge_channel(rt: &impl Abort, alloc: Global, run: &mut Run, height: u64) {
    let ack = ChanOpenAck {
        port: name(rt, alloc, "transfer"),
        channel: channel(rt, alloc),
        peer_channel: channel(rt, alloc),
        height,
        proof: proof_of_channel(rt, alloc, &run.world, 1, height),
    };
    send(rt, alloc, run, 0, Message::ChanOpenAck(ack));
}

// Chain 1 confirms the channel.
fn confirm_channel(rt: &impl Abort, alloc: Global, run: &mut Run, height: u64) {
    let confirm = ChanOpenConfirm {
        port: name(rt, alloc, "transfer"),
        channel: channel(rt, alloc),
        height,
        proof: proof_of_channel(rt, alloc, &run.world, 0, height),
    };
    send(rt, alloc, run, 1, Message::ChanOpenConfirm(confirm));
}

/// The run that opens a channel of port `transfer` between two chains.
pub fn open(rt: &impl Abort, alloc: Global, run: &mut Run) {
    begin_connection(rt, alloc, run);
    let height = publish(rt, alloc, run, 0);
    answer_connection(rt, alloc, run, height);
    let height = publish(rt, alloc, run, 1);
    acknowledge_connection(rt, alloc, run, height);
    begin_channel(rt, alloc, run);
    let height = publish(rt, alloc, run, 0);
    confirm_connection(rt, alloc, run, height);
    answer_channel(rt, alloc, run, height);
    let height = publish(rt, alloc, run, 1);
    acknowledge_channel(rt, alloc, run, height);
    let height = publish(rt, alloc, run, 0);
    confirm_channel(rt, alloc, run, height);
}

/// Sends 100 of a denomination from a user of a chain to one of the other.
pub fn transfer(
    rt: &impl Abort,
    alloc: Global,
    run: &mut Run,
    chain: u8,
    user: &str,
    denom: &str,
    receiver: &str,
) {
    let transfer = Transfer {
        channel: channel(rt, alloc),
        user: name(rt, alloc, user),
        denom: name(rt, alloc, denom),
        amount: 100,
        receiver: name(rt, alloc, receiver),
        memo: Memo::parse(alloc, "").expect(rt, "a memo"),
        timeout_height: 1_000,
        timeout_time: 0,
    };
    send(rt, alloc, run, chain, Message::Transfer(transfer));
}

// The first packet that a chain sent over the channel.
fn first_packet(rt: &impl Abort, alloc: Global, world: &World, chain: u8) -> Packet {
    let ledger = world.ledger(chain).expect(rt, "a chain");
    let port = name(rt, alloc, "transfer");
    let channel = channel(rt, alloc);
    let packet = ledger.packet(&port, &channel, 1).expect(rt, "memory");
    drop(channel);
    drop(port);
    packet.expect(rt, "a packet")
}

/// Ends the block of a chain, and has the other one receive its first packet.
pub fn receive(rt: &impl Abort, alloc: Global, run: &mut Run, from: u8) {
    let height = publish(rt, alloc, run, from);
    let key = Key::Commitment(name(rt, alloc, "transfer"), channel(rt, alloc), 1);
    let proof = proof(rt, alloc, &run.world, from, height, key);
    let message = RecvPacket {
        packet: first_packet(rt, alloc, &run.world, from),
        height,
        proof,
    };
    send(rt, alloc, run, other(from), Message::RecvPacket(message));
}

/// Ends the block of the chain that received the first packet, and tells its sender of the acknowledgement.
pub fn acknowledge(rt: &impl Abort, alloc: Global, run: &mut Run, sender: u8, ack: &str) {
    let receiver = other(sender);
    let height = publish(rt, alloc, run, receiver);
    let key = Key::Acknowledgement(name(rt, alloc, "transfer"), channel(rt, alloc), 1);
    let proof = proof(rt, alloc, &run.world, receiver, height, key);
    let message = AckPacket {
        packet: first_packet(rt, alloc, &run.world, sender),
        ack: Bytes::copy_of(alloc, ack.as_bytes()).expect(rt, "memory"),
        height,
        proof,
    };
    send(rt, alloc, run, sender, Message::AckPacket(message));
}
