//! Messages and proofs of a chain with many records come as bytes. They are read, and checked under the root that is known: those
//! of packets one after another, as a relayer sends them to the other chain, and those of other keys at random, there or not. No
//! key is proved twice. Some are changed on their way, and are accepted by nobody.

use crate::behind::made_behind;
use crate::lanes::{LaneEnd, Traffic, open_lane, send};
use crate::network::Network;
use crate::random::Random;
use crate::run_error::RunError;
use ibc_ics23_proof::{verify_absent, verify_present};
use ibc_ids::{Bytes, Key, Refusal, Root};
use ibc_ledger::View;
use ibc_machine::{Event, Reply};
use ibc_merkle::Proof;
use ibc_message_codec as codec;
use ibc_script::{Application, ClientDraft, Draft};
use ibc_script_cli::Chains;
use ibc_wire::{Message, Packet, RecvPacket};
use std::alloc::Global;

const TRAFFIC: Traffic = Traffic {
    users: 100,
    late: 0,
};

// Of so many packets one is delivered, and so many keys are looked up for one that is.
const PACKETS_TO_DELIVERED: u64 = 4;

// One in so many messages and proofs is changed on its way.
const CHANGED: u64 = 8;

/// The keys whose proofs nobody asked for yet, by their sequences.
#[derive(Drop)]
struct Unproved {
    /// Of commitments of packets that were sent.
    sent: Vec<u64>,
    /// Of commitments of packets that have yet to be sent.
    unsent: Vec<u64>,
    /// Of receipts, none of which is there.
    receipts: Vec<u64>,
}

impl Unproved {
    // Those of a chain that sent so many packets, of which the first ones were delivered.
    fn of(alloc: Global, size: u64, delivered: u64) -> Result<Unproved, RunError> {
        Ok(Unproved {
            sent: sequences(alloc, delivered, size)?,
            unsent: sequences(alloc, size, size.saturating_mul(2))?,
            receipts: sequences(alloc, 0, size)?,
        })
    }

    // Takes a key at random: of a packet that was sent, of one that has yet to be, or of a receipt.
    fn take(&mut self, alloc: Global, random: &mut Random, end: &LaneEnd) -> Result<Key, RunError> {
        match random.below(4) {
            0 => commitment(alloc, end, taken(random, &mut self.unsent)?),
            1 => receipt(alloc, end, taken(random, &mut self.receipts)?),
            _ => commitment(alloc, end, taken(random, &mut self.sent)?),
        }
    }
}

// The sequences behind one, up to another.
fn sequences(alloc: Global, before: u64, last: u64) -> Result<Vec<u64>, RunError> {
    let mut sequences = Vec::new(alloc);
    for sequence in before..last {
        sequences.push(sequence.saturating_add(1))?;
    }
    Ok(sequences)
}

// Takes one of the sequences at random.
fn taken(random: &mut Random, sequences: &mut Vec<u64>) -> Result<u64, RunError> {
    let place = random.place(sequences.len());
    if place < sequences.len() {
        Ok(sequences.swap_remove(place))
    } else {
        Err(RunError::Unexpected("each key was looked up"))
    }
}

/// Sends so many packets, and checks the proofs of some.
pub fn drive(network: &mut Network, size: u64, random: &mut Random) -> Result<(), RunError> {
    let mut ends = Vec::new(network.alloc);
    let driven = match open_lane(network, &mut ends, 0, 1, Application::Transfer) {
        Ok(()) => send_and_check(network, random, ends.as_slice(), size),
        Err(error) => Err(error),
    };
    drop(ends);
    driven
}

// Sends so many packets over the channel with these ends, and checks the proofs of some.
fn send_and_check(
    network: &mut Network,
    random: &mut Random,
    ends: &[LaneEnd],
    size: u64,
) -> Result<(), RunError> {
    let [end, peer] = ends else {
        return Err(RunError::Unexpected("a channel has two ends"));
    };
    send_all(network, random, end, size)?;
    tell_peer(network, peer)?;
    check_all(network, random, end, size)
}

// Sends so many packets, and ends the block.
fn send_all(
    network: &mut Network,
    random: &mut Random,
    end: &LaneEnd,
    size: u64,
) -> Result<(), RunError> {
    for _packet in 0..size {
        send(network, random, end, TRAFFIC)?;
    }
    network.end_block(end.chain);
    Ok(())
}

// Tells the other chain of the block.
fn tell_peer(network: &mut Network, peer: &LaneEnd) -> Result<(), RunError> {
    let draft = ClientDraft::Update {
        client: peer.client.clone()?,
        height: network.height(peer.peer),
    };
    network.submit(peer.chain, Draft::Client(draft))
}

// Checks the proofs of packets in a row, and of other keys at random.
fn check_all(
    network: &mut Network,
    random: &mut Random,
    end: &LaneEnd,
    size: u64,
) -> Result<(), RunError> {
    let view = match network.world.ledger(end.chain) {
        Some(ledger) => ledger.view()?,
        None => return Err(RunError::Unexpected("there is no such chain")),
    };
    let checked = check_each(network, random, &view, end, size);
    drop(view);
    checked
}

fn check_each(
    network: &mut Network,
    random: &mut Random,
    view: &View,
    end: &LaneEnd,
    size: u64,
) -> Result<(), RunError> {
    let delivered = size.checked_div(PACKETS_TO_DELIVERED).unwrap_or(0);
    for number in 0..delivered {
        deliver(network, random, view, end, number.saturating_add(1))?;
    }
    let mut unproved = Unproved::of(network.alloc, size, delivered)?;
    let looked = look_each(network, random, view, end, &mut unproved, delivered);
    drop(unproved);
    looked
}

// Looks up so many keys.
fn look_each(
    network: &mut Network,
    random: &mut Random,
    view: &View,
    end: &LaneEnd,
    unproved: &mut Unproved,
    count: u64,
) -> Result<(), RunError> {
    for _look in 0..count {
        look_up(network, random, view, end, unproved)?;
    }
    Ok(())
}

// The key of the commitment of a packet that an end sent.
fn commitment(alloc: Global, end: &LaneEnd, sequence: u64) -> Result<Key, RunError> {
    let (port, channel) = end.port_and_channel(alloc)?;
    Ok(Key::Commitment(port, channel, sequence))
}

// The key of the receipt of a packet that an end sent.
fn receipt(alloc: Global, end: &LaneEnd, sequence: u64) -> Result<Key, RunError> {
    let (port, channel) = end.port_and_channel(alloc)?;
    Ok(Key::Receipt(port, channel, sequence))
}

// The bytes of the proof of what a chain has at a key, at its last block. The tally takes them in.
fn proof_of(network: &mut Network, view: &View, key: &Key) -> Result<Bytes, RunError> {
    if view.height() == 0 {
        return Err(RunError::Unexpected("no block has ended"));
    }
    let proof = view.prove(network.alloc, key)?;
    network.tally.digest.long_bytes(proof.as_slice());
    Ok(proof)
}

// The root of a chain's last block, if there is one.
fn root_of(view: &View) -> Option<Root> {
    if view.height() == 0 {
        None
    } else {
        Some(view.root())
    }
}

// The bytes of the message by which the other chain receives a packet.
fn spelled_delivery(
    network: &mut Network,
    view: &View,
    end: &LaneEnd,
    sequence: u64,
) -> Result<Vec<u8>, RunError> {
    let proof = proof_of_packet(network, view, end, sequence)?;
    let (proof, packet) = made_behind(proof, packet_of(network, end, sequence))?;
    let delivery = RecvPacket {
        packet,
        height: view.height(),
        proof,
    };
    spelled(network, Message::RecvPacket(delivery))
}

// The bytes of the proof of the commitment of a packet that an end sent. The tally takes them in.
fn proof_of_packet(
    network: &mut Network,
    view: &View,
    end: &LaneEnd,
    sequence: u64,
) -> Result<Bytes, RunError> {
    let key = commitment(network.alloc, end, sequence)?;
    let proof = proof_of(network, view, &key);
    drop(key);
    proof
}

// The packet that an end sent.
fn packet_of(network: &Network, end: &LaneEnd, sequence: u64) -> Result<Packet, RunError> {
    let port = end.port(network.alloc)?;
    let packet = network.packet(end.chain, &port, &end.channel, sequence);
    drop(port);
    match packet? {
        Some(packet) => Ok(packet),
        None => Err(RunError::Unexpected("there is no such packet")),
    }
}

// The bytes of a message. The tally takes them in.
fn spelled(network: &mut Network, message: Message) -> Result<Vec<u8>, RunError> {
    let bytes = codec::encode(network.alloc, &message);
    drop(message);
    let bytes = bytes?;
    network.tally.digest.long_bytes(bytes.as_slice());
    Ok(bytes)
}

// Changes a byte now and then, and tells whether it did.
fn change(random: &mut Random, bytes: &mut [u8]) -> bool {
    if !random.is_one_in(CHANGED) {
        return false;
    }
    let place = random.place(bytes.len());
    let bits = u8::try_from(random.below(255))
        .unwrap_or(0)
        .saturating_add(1);
    if let Some(byte) = bytes.get_mut(place) {
        *byte ^= bits;
    }
    true
}

// Delivers a packet by bytes, which are read and checked, and then given to the other chain.
fn deliver(
    network: &mut Network,
    random: &mut Random,
    view: &View,
    end: &LaneEnd,
    sequence: u64,
) -> Result<(), RunError> {
    let mut bytes = spelled_delivery(network, view, end, sequence)?;
    let is_changed = change(random, bytes.as_mut_slice());
    let delivered = are_delivered(network, view, end, sequence, bytes.as_slice());
    drop(bytes);
    let is_accepted = delivered?;
    network.tally.verdict(is_accepted);
    if is_accepted == is_changed {
        return Err(RunError::Unexpected("a changed message is accepted, or another refused"));
    }
    Ok(())
}

// Whether bytes are read as a message that the other chain accepts.
fn are_delivered(
    network: &mut Network,
    view: &View,
    end: &LaneEnd,
    sequence: u64,
    bytes: &[u8],
) -> Result<bool, RunError> {
    match codec::decode(network.alloc, bytes) {
        Ok(message) => is_delivered(network, view, end, sequence, message),
        Err(_) => Ok(false),
    }
}

// Whether the other chain accepts a message, whose proof is checked before.
fn is_delivered(
    network: &mut Network,
    view: &View,
    end: &LaneEnd,
    sequence: u64,
    message: Message,
) -> Result<bool, RunError> {
    match check_delivery(network, view, end, sequence, &message) {
        Ok(()) => Ok(is_taken(network, end.peer, message)),
        Err(error) => {
            drop(message);
            Err(error)
        }
    }
}

// Whether a chain accepts a message.
fn is_taken(network: &mut Network, chain: u8, message: Message) -> bool {
    let reply = network.put(Event::Message { chain, message });
    let is_taken = matches!(&reply, Reply::Ok(_));
    drop(reply);
    is_taken
}

// Checks the proof of a message apart from the chain that it goes to.
fn check_delivery(
    network: &mut Network,
    view: &View,
    end: &LaneEnd,
    sequence: u64,
    message: &Message,
) -> Result<(), RunError> {
    let alloc = network.alloc;
    let Message::RecvPacket(delivery) = message else {
        network.tally.verdict(false);
        return Ok(());
    };
    let key = commitment(alloc, end, sequence)?;
    let is_shown = is_shown(network, view, &key, end.chain, delivery.proof.as_slice());
    drop(key);
    network.tally.verdict(is_shown?);
    Ok(())
}

// Whether the bytes are a proof of what a chain has at a key: of its presence where it is there, and of its absence where not. The
// tally takes in what it has there.
fn is_shown(
    network: &mut Network,
    view: &View,
    key: &Key,
    chain: u8,
    bytes: &[u8],
) -> Result<bool, RunError> {
    let Some(root) = root_of(view) else {
        return Err(RunError::Unexpected("no block has ended"));
    };
    let value = network.value(chain, key)?;
    network.tally.value(&value);
    let is_shown = is_proof_at(network.alloc, root, key, &value, bytes);
    drop(value);
    Ok(is_shown?)
}

// Whether the bytes are a proof under a root that a value stands at a key, or that none does.
fn is_proof_at(
    alloc: Global,
    root: Root,
    key: &Key,
    value: &Option<Bytes>,
    bytes: &[u8],
) -> Result<bool, Refusal> {
    let path = key.path(alloc)?;
    let is_proof = is_proof(alloc, root, path.as_bytes(), value, bytes);
    drop(path);
    is_proof
}

// Whether the bytes are a proof under a root that a value stands at a path, or that none does.
fn is_proof(
    alloc: Global,
    root: Root,
    path: &[u8],
    value: &Option<Bytes>,
    bytes: &[u8],
) -> Result<bool, Refusal> {
    let proof: Proof = match ibc_wire::decode(alloc, bytes) {
        Ok(proof) => proof,
        Err(Refusal::BadMessage) => return Ok(false),
        Err(refusal) => return Err(refusal),
    };
    let is_proof = match value {
        Some(value) => verify_present(&proof, &root, path, value.as_slice()),
        None => verify_absent(&proof, &root, path),
    };
    drop(proof);
    Ok(is_proof)
}

// Looks a key up by a proof that comes as bytes: a packet's commitment, or one that isn't there.
fn look_up(
    network: &mut Network,
    random: &mut Random,
    view: &View,
    end: &LaneEnd,
    unproved: &mut Unproved,
) -> Result<(), RunError> {
    let key = unproved.take(network.alloc, random, end)?;
    let proof = proof_of(network, view, &key);
    let verdict = match proof {
        Ok(proof) => looked_up(network, random, view, &key, end.chain, proof),
        Err(error) => Err(error),
    };
    drop(key);
    network.tally.verdict(verdict?);
    Ok(())
}

// Whether the proof of a key, with a byte changed now and then, is one. It has to be exactly where no byte was changed.
fn looked_up(
    network: &mut Network,
    random: &mut Random,
    view: &View,
    key: &Key,
    chain: u8,
    proof: Bytes,
) -> Result<bool, RunError> {
    let copied = proof.as_slice().to_vec(network.alloc);
    drop(proof);
    let mut bytes = copied?;
    let is_changed = change(random, bytes.as_mut_slice());
    let is_shown = is_shown(network, view, key, chain, bytes.as_slice());
    drop(bytes);
    let is_shown = is_shown?;
    if is_shown == is_changed {
        return Err(RunError::Unexpected("a changed proof shows something, or another nothing"));
    }
    Ok(is_shown)
}
