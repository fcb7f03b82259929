//! Where in a history the packets stand that were sent.

ghost use Rattle.std.specs.Prelude.{◌≡◌, ◌<◌, [], IfOk, OnOk, IsTrue};
ghost use Rattle.ibc_ids.specs.Maps.{at};
ghost use Rattle.ibc_ids.specs.Names.{is_port};
ghost use Rattle.ibc_ledger.specs.SentNames.{sender_of, name_if_sent, sent_cmp, with_first};

use ibc_ids::{ChannelId, PortId};
use ibc_machine::{Effect, Reply};
use ibc_maps::SharedMap;
use ibc_wire::Message;
use std::alloc::{AllocError, Global};
use std::marker::Model;

/// The end from which a packet is sent: its port and its name.
pub type Sender = (PortId, ChannelId);

// The places by the ends and sequences of the packets.
type Places = SharedMap<(Sender, u64), usize>;

/// The places in a history of the packets that were sent in it, by their ends and sequences (ICS 4, "sendPacket").
/// Contracts see the places by name, and for how many more there is room.
#[derive(Drop)]
pub struct SentPackets {
    places: Places,
}

impl Model for SentPackets {
    ghost use Rattle.std.specs.Prelude.{ℕ};
    ghost use Rattle.ibc_maps.specs.SortedMapModel.{SortedMapModel};
    ghost use Rattle.ibc_ledger.specs.SentNames.{SentName};

    ghost Value = { SortedMapModel SentName ℕ };

    ghost view = { λ sent. sent.places };
}

impl SentPackets {
    /// No packet was sent.
    pub fn new(alloc: Global) -> SentPackets
        ensures { result.pairs ≡ [] }
    {
        SentPackets {
            places: Places::new(alloc),
        }
    }

    /// Makes room for the place of a packet, and gives the end from which the message sends one, or none. Error: memory ran
    /// out; the places stay.
    pub fn make_room(
        &mut self,
        alloc: Global,
        message: &Message,
    ) -> Result<Option<Sender>, AllocError>
        ensures pairs { self.new.pairs ≡ self.old.pairs }
        ensures sender { IfOk result (λ sender. sender ≡ sender_of message.now) }
        ensures room { OnOk result (0 < self.new.room) }
    {
        self.places.reserve(1)?;
        sender_of(alloc, message)
    }

    /// The place of the packet that was sent from this end under a sequence, or none where none was sent. Error: memory ran
    /// out.
    pub fn place(
        &self,
        port: &PortId,
        channel: &ChannelId,
        sequence: u64,
    ) -> Result<Option<usize>, AllocError>
        ensures { IfOk result (λ n. n ≡ at sent_cmp ((port.now, channel.now), sequence) self.now.pairs) }
    {
        let port = port.clone()?;
        let channel = channel.clone()?;
        let name = ((port, channel), sequence);
        Ok(self.places.get(&name).copied())
    }

    /// Keeps the place of the packet that was sent by this reply, if one was. The first packet of a name stays.
    pub fn keep_first(&mut self, sender: Option<Sender>, reply: &Reply, place: usize)
        requires { 0 < self.old.room }
        ensures { self.new.pairs ≡ with_first (name_if_sent sender reply.now) place self.old.pairs }
    {
        keep_in(&mut self.places, sender, reply, place);
    }
}

// Keeps the place of the packet that was sent by this reply, if one was.
fn keep_in(places: &mut Places, sender: Option<Sender>, reply: &Reply, place: usize)
    requires { 0 < places.old.room }
    ensures { places.new.pairs ≡ with_first (name_if_sent sender reply.now) place places.old.pairs }
{
    let Some(sender) = sender else {
        return;
    };
    let Reply::Ok(Effect::Sent(sequence)) = reply else {
        return;
    };
    let name = (sender, *sequence);
    if places.get(&name).is_some() {
        return;
    }
    let Ok(()) = places.set(name, place) else {
        unreachable!();
    };
}

// The end from which a message sends a packet, or none. Error: memory ran out.
fn sender_of(alloc: Global, message: &Message) -> Result<Option<Sender>, AllocError>
    ensures { IfOk result (λ sender. sender ≡ sender_of message.now) }
{
    match message {
        Message::SendNote(message) => Ok(Some((port(alloc, "note")?, message.channel.clone()?))),
        Message::Transfer(message) => {
            Ok(Some((port(alloc, "transfer")?, message.channel.clone()?)))
        }
        Message::TransferMany(message) => {
            Ok(Some((port(alloc, "transfer")?, message.channel.clone()?)))
        }
        _ => Ok(None),
    }
}

// The port of this name. Error: memory ran out.
fn port(alloc: Global, name: &str) -> Result<PortId, AllocError>
    requires { IsTrue (is_port name.now) }
    ensures { IfOk result (λ port. port ≡ name.now) }
{
    match PortId::parse(alloc, name) {
        Ok(port) => Ok(port),
        Err(_) => Err(AllocError),
    }
}
