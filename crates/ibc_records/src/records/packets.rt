//! The packets of a chain's channels.

ghost use Rattle.std.specs.Prelude.{◌≡◌, ◌&&◌, ◌+◌, ◌-◌, ◌^◌, ◌<◌, ◌≤◌, true, Ok, IsSome, IfOk, OnOk, OnErr, IsTrue, string_bytes, IsOkUnless};
ghost use Rattle.std.specs.Option.{IsSomeAnd};
ghost use Rattle.ibc_ids.specs.Texts.{pair_cmp};
ghost use Rattle.ibc_ids.specs.Maps.{at};
ghost use Rattle.ibc_ids.specs.Names.{is_port, is_channel};
ghost use Rattle.ibc_ids.specs.Paths.{path};
ghost use Rattle.ibc_ids.specs.declared.refusal.Refusal.TheVariants.{NoMemory};
ghost use Rattle.ibc_machine.specs.chain.Records.{channel_at};
ghost use Rattle.ibc_machine.specs.ics04.Packets.{is_ordered};
ghost use Rattle.ibc_machine.specs.ics24.Values.{value_bytes, AckIs, CommitmentIs, NumberIs};
ghost use Rattle.ibc_records.specs.RecordsModel.{core_of, IsUnchanged};
ghost use Rattle.ibc_records.specs.Packets.{SendsPacket, AcknowledgesPacket, TimesOutPacket};
ghost use Rattle.ibc_records.specs.ChannelSteps.{SendsOn, ReceivesOn, AcknowledgesOn, TimesOutOn};
ghost use Rattle.ibc_records.specs.AppAnswers.{IfReceived, IsAckRefused, IsTimeoutRefused, AnswersOn, TellsAck, IsAckRefusedOn, TellsTimeout, IsTimeoutRefusedOn};
ghost use Rattle.ibc_records.specs.Entries.{commitment_path, next_send_path, ack_path, IsReceivedEntry, IsAckedEntry, IsClosedEntry};
ghost use Rattle.ibc_records.specs.OwnEnds.{CanSend, CanReceive, CanAcknowledge, CanCountRecv, CanCountAck};
ghost use Rattle.ibc_records.specs.WhyRefused.{IsRefusedAs};

use crate::acknowledgement::{AckCopies, AckRoom};
use crate::channel::Channel;
use crate::commitment::Commitment;
use crate::maps::{Channels, put, take};
use crate::packet_entries::{acknowledged_entry, closed_entry, received_entry, settle};
use crate::packet_values::{channel_counter, commitment_value};
use crate::values::set_reserved;
use crate::{App, NoPayer, Pays, Records};
use ibc_ids::{Bytes, ChannelId, PortId, Refusal, sequence_path};
use ibc_path_store::Store;
use ibc_wire::Packet;
use std::alloc::Global;

impl Records {
    /// Commits to a packet under the next sequence of a channel, and answers it (ICS 4, "sendPacket"). `NoMemory` where a
    /// growth is refused; the records are then as before.
    pub fn send(
        &mut self,
        port: &PortId,
        id: &ChannelId,
        commitment: Commitment,
    ) -> Result<u64, Refusal>
        requires { CanSend self.old port.now id.now }
        ensures ok { IfOk result (λ n. SendsPacket self.old port.now id.now commitment n self.new) }
        ensures err { IsOkUnless result NoMemory }
        ensures unchanged { OnErr result (IsUnchanged self.old self.new) }
    {
        self.send_paid(&mut NoPayer, &(), port, id, commitment)
    }

    /// As `send`, where a payer pays once nothing else can be refused (ICS 20, "sendFungibleTokens"). What the payer
    /// refuses; `NoMemory` where a growth is refused. The records and the payer are then as before.
    pub fn send_paid<Bill, P: Pays<Bill>>(
        &mut self,
        payer: &mut P,
        bill: &Bill,
        port: &PortId,
        id: &ChannelId,
        commitment: Commitment,
    ) -> Result<u64, Refusal>
        requires { CanSend self.old port.now id.now }
        ensures ok { IfOk result (λ n. SendsPacket self.old port.now id.now commitment n self.new) }
        ensures paid { OnOk result (P.pays payer.old bill.now ≡ Ok payer.new) }
        ensures err { IsRefusedAs (P.pays payer.old bill.now) result }
        ensures unchanged { OnErr result (IsUnchanged self.old self.new × (payer.new ≡ payer.old)) }
    {
        let name = name_of(port, id)?;
        let sequence = match self.channels.get(&name) {
            Some(channel) => channel.next_send(),
            None => return Err(Refusal::UnknownChannel),
        };
        let ((path, value), (next_path, next)) = reserve_send(
            self.alloc,
            &mut self.store,
            &name,
            sequence,
            &commitment,
        )?;
        send_on(&mut self.channels, name, payer, bill, commitment)?;
        set_reserved(&mut self.store, path, value);
        set_reserved(&mut self.store, next_path, next);
        Ok(sequence)
    }

    /// Hands a packet to the application of its channel, and writes the acknowledgement, which it answers twice, to be
    /// told and to be kept (ICS 4, "recvPacket"). `NoMemory` where a growth is refused; the records and the application
    /// are then as before.
    pub fn receive<A: App>(
        &mut self,
        app: &mut A,
        packet: &Packet,
    ) -> Result<(Bytes, Bytes), Refusal>
        requires { CanReceive self.old packet.now }
        ensures ok { IfReceived A.receives self.old app.old packet.now result self.new app.new }
        ensures copy { IfOk result (λ acks. acks.1 ≡ acks.0) }
        ensures err { IsOkUnless result NoMemory }
        ensures unchanged { OnErr result (IsUnchanged self.old self.new × (app.new ≡ app.old)) }
    {
        self.ack_room.reserve()?;
        let name = name_of(&packet.destination_port, &packet.destination_channel)?;
        let Some(channel) = self.channels.get(&name) else {
            return Err(Refusal::UnknownChannel);
        };
        let (path, (other_path, other)) = reserve_receive(
            self.alloc,
            &mut self.store,
            &name,
            channel,
            packet.sequence,
        )?;
        let acks = receive_on(&mut self.channels, name, app, packet, &mut self.ack_room)?;
        set_reserved(&mut self.store, path, acks.value);
        set_reserved(&mut self.store, other_path, other);
        Ok((acks.reply, acks.copy))
    }

    /// Tells the application the acknowledgement of a packet that its channel sent, and removes the packet's commitment
    /// (ICS 4, "acknowledgePacket"). What the application refuses; `NoMemory` where a growth is refused. The records and
    /// the application are then as before.
    pub fn acknowledge<A: App>(
        &mut self,
        app: &mut A,
        packet: &Packet,
        ack: &[u8],
    ) -> Result<(), Refusal>
        requires { CanAcknowledge self.old packet.now }
        ensures ok { OnOk result (AcknowledgesPacket A.is_acknowledged self.old app.old packet.now ack.now self.new app.new) }
        ensures err { IsAckRefused A.is_acknowledged self.old app.old packet.now ack.now result }
        ensures unchanged { OnErr result (IsUnchanged self.old self.new × (app.new ≡ app.old)) }
    {
        let name = name_of(&packet.source_port, &packet.source_channel)?;
        let Some(channel) = self.channels.get(&name) else {
            return Err(Refusal::UnknownChannel);
        };
        let (path, counter) = reserve_acknowledged(
            self.alloc,
            &mut self.store,
            &name,
            channel,
            packet.sequence,
        )?;
        acknowledge_on(&mut self.channels, name, app, packet, ack)?;
        settle(&mut self.store, path.as_str(), counter);
        Ok(())
    }

    /// Tells the application that a packet that its channel sent won't be received any more, and removes the packet's
    /// commitment; an ordered channel is closed (ICS 4, "timeoutPacket" and "timeoutOnClose"). What the application
    /// refuses; `NoMemory` where a growth is refused. The records and the application are then as before.
    pub fn time_out<A: App>(&mut self, app: &mut A, packet: &Packet) -> Result<(), Refusal>
        requires { IsSome (channel_at (core_of self.old) packet.now.source_port packet.now.source_channel) }
        ensures ok { OnOk result (TimesOutPacket A.times_out self.old app.old packet.now self.new app.new) }
        ensures err { IsTimeoutRefused A.times_out self.old app.old packet.now result }
        ensures unchanged { OnErr result (IsUnchanged self.old self.new × (app.new ≡ app.old)) }
    {
        let name = name_of(&packet.source_port, &packet.source_channel)?;
        let Some(channel) = self.channels.get(&name) else {
            return Err(Refusal::UnknownChannel);
        };
        let (path, closed) = reserve_timed_out(
            self.alloc,
            &mut self.store,
            &name,
            channel,
            packet.sequence,
        )?;
        time_out_on(&mut self.channels, name, app, packet)?;
        settle(&mut self.store, path.as_str(), closed);
        Ok(())
    }
}

// The name of an end of a channel.
fn name_of(port: &PortId, id: &ChannelId) -> Result<(PortId, ChannelId), Refusal>
    ensures ok { IfOk result (λ name. name ≡ (port.now, id.now)) }
    ensures err { IsOkUnless result NoMemory }
{
    Ok((port.clone()?, id.clone()?))
}

// Makes room for a packet that is sent, and what is set then: its commitment, and the sequence behind it.
fn reserve_send(
    alloc: Global,
    store: &mut Store,
    name: &(PortId, ChannelId),
    sequence: u64,
    commitment: &Commitment,
) -> Result<((String, Bytes), (String, Bytes)), Refusal>
    requires { sequence < 2 ^ 64 - 1 }
    ensures path { IfOk result (λ made. string_bytes made.0.0 ≡ commitment_path name.now sequence) }
    ensures value { IfOk result (λ made. made.0.1 ≡ value_bytes (CommitmentIs commitment.now)) }
    ensures next_path { IfOk result (λ made. string_bytes made.1.0 ≡ next_send_path name.now) }
    ensures next { IfOk result (λ made. made.1.1 ≡ value_bytes (NumberIs (sequence + 1))) }
    ensures named { OnOk result (IsTrue (is_port name.now.0 && is_channel name.now.1)) }
    ensures room { OnOk result (2 ≤ store.new.room) }
    ensures same { store.new ≡ record store.old { room = store.new.room } }
    ensures err { IsOkUnless result NoMemory }
{
    store.reserve(2)?;
    let path = sequence_path(alloc, "commitments", &name.0, &name.1, sequence)?;
    let value = commitment_value(alloc, commitment)?;
    let next = sequence + 1;
    let counter = channel_counter(alloc, "nextSequenceSend", &name.0, &name.1, next)?;
    Ok(((path, value), counter))
}

// A channel that is there commits to a packet that is paid for.
fn send_on<Bill, P: Pays<Bill>>(
    channels: &mut Channels,
    name: (PortId, ChannelId),
    payer: &mut P,
    bill: &Bill,
    commitment: Commitment,
) -> Result<(), Refusal>
    requires { IsSomeAnd (at pair_cmp name channels.old.pairs) (λ mine. mine.next_send < 2 ^ 64 - 1) }
    ensures ok { OnOk result (SendsOn name commitment channels.old channels.new) }
    ensures paid { OnOk result (P.pays payer.old bill.now ≡ Ok payer.new) }
    ensures err { IsRefusedAs (P.pays payer.old bill.now) result }
    ensures unchanged { OnErr result ((channels.new.pairs ≡ channels.old.pairs) × (payer.new ≡ payer.old)) }
{
    let mut channel = take(channels, &name)?;
    let sent = channel.send(payer, bill, commitment);
    put(channels, name, channel);
    sent
}

// Makes room for a packet that is received, the path of its acknowledgement, and what is set beside it.
fn reserve_receive(
    alloc: Global,
    store: &mut Store,
    name: &(PortId, ChannelId),
    channel: &Channel,
    sequence: u64,
) -> Result<(String, (String, Bytes)), Refusal>
    requires { is_ordered channel.now ≡ true → channel.now.next_recv < 2 ^ 64 - 1 }
    ensures path { IfOk result (λ made. string_bytes made.0 ≡ ack_path name.now sequence) }
    ensures other { IfOk result (λ m. IsReceivedEntry name.now.0 name.now.1 sequence channel.now m.1) }
    ensures named { OnOk result (IsTrue (is_port name.now.0 && is_channel name.now.1)) }
    ensures fits { sequence < 2 ^ 64 }
    ensures room { OnOk result (2 ≤ store.new.room) }
    ensures same { store.new ≡ record store.old { room = store.new.room } }
    ensures err { IsOkUnless result NoMemory }
{
    store.reserve(2)?;
    let path = sequence_path(alloc, "acks", &name.0, &name.1, sequence)?;
    Ok((
        path,
        received_entry(alloc, &name.0, &name.1, channel, sequence)?,
    ))
}

// A channel that is there receives a packet.
fn receive_on<A: App>(
    channels: &mut Channels,
    name: (PortId, ChannelId),
    app: &mut A,
    packet: &Packet,
    room: &mut AckRoom,
) -> Result<AckCopies, Refusal>
    requires some { IsSomeAnd (at pair_cmp name channels.old.pairs) (λ mine. CanCountRecv mine) }
    requires room { 1024 ≤ room.old }
    ensures answer { AnswersOn A.receives name channels.old app.old packet.now result app.new }
    ensures copy { IfOk result (λ acks. acks.copy ≡ acks.reply) }
    ensures value { IfOk result (λ acks. acks.value ≡ value_bytes (AckIs acks.reply)) }
    ensures ok { ReceivesOn name packet.now.sequence result channels.old channels.new }
    ensures err { IsOkUnless result NoMemory }
    ensures unchanged { OnErr result ((channels.new.pairs ≡ channels.old.pairs) × (app.new ≡ app.old)) }
{
    let mut channel = take(channels, &name)?;
    let received = channel.receive(app, packet, room);
    put(channels, name, channel);
    received
}

// Makes room for a packet that is acknowledged, the path of its commitment, and what is set beside it.
fn reserve_acknowledged(
    alloc: Global,
    store: &mut Store,
    name: &(PortId, ChannelId),
    channel: &Channel,
    sequence: u64,
) -> Result<(String, Option<(String, Bytes)>), Refusal>
    requires { is_ordered channel.now ≡ true → channel.now.next_ack < 2 ^ 64 - 1 }
    ensures path { IfOk result (λ made. string_bytes made.0 ≡ commitment_path name.now sequence) }
    ensures other { IfOk result (λ made. IsAckedEntry name.now.0 name.now.1 channel.now made.1) }
    ensures named { OnOk result (IsTrue (is_port name.now.0 && is_channel name.now.1)) }
    ensures fits { sequence < 2 ^ 64 }
    ensures room { OnOk result (0 < store.new.room) }
    ensures same { store.new ≡ record store.old { room = store.new.room } }
    ensures err { IsOkUnless result NoMemory }
{
    store.reserve(1)?;
    let path = sequence_path(alloc, "commitments", &name.0, &name.1, sequence)?;
    Ok((path, acknowledged_entry(alloc, &name.0, &name.1, channel)?))
}

// A channel that is there has a packet acknowledged.
fn acknowledge_on<A: App>(
    channels: &mut Channels,
    name: (PortId, ChannelId),
    app: &mut A,
    packet: &Packet,
    ack: &[u8],
) -> Result<(), Refusal>
    requires { IsSomeAnd (at pair_cmp name channels.old.pairs) (λ mine. CanCountAck mine) }
    ensures ok { OnOk result (AcknowledgesOn name packet.now.sequence channels.old channels.new) }
    ensures told { TellsAck A.is_acknowledged name channels.old app.old packet.now ack.now result app.new }
    ensures err { IsAckRefusedOn A.is_acknowledged name channels.old app.old packet.now ack.now result }
    ensures unchanged { OnErr result ((channels.new.pairs ≡ channels.old.pairs) × (app.new ≡ app.old)) }
{
    let mut channel = take(channels, &name)?;
    let settled = channel.acknowledge(app, packet, ack);
    put(channels, name, channel);
    settled
}

// Makes room for a packet that won't be received any more, the path of its commitment, and what is set beside it.
fn reserve_timed_out(
    alloc: Global,
    store: &mut Store,
    name: &(PortId, ChannelId),
    channel: &Channel,
    sequence: u64,
) -> Result<(String, Option<(String, Bytes)>), Refusal>
    ensures path { IfOk result (λ made. string_bytes made.0 ≡ commitment_path name.now sequence) }
    ensures other { IfOk result (λ made. IsClosedEntry name.now.0 name.now.1 channel.now made.1) }
    ensures named { OnOk result (IsTrue (is_port name.now.0 && is_channel name.now.1)) }
    ensures fits { sequence < 2 ^ 64 }
    ensures room { OnOk result (0 < store.new.room) }
    ensures same { store.new ≡ record store.old { room = store.new.room } }
    ensures err { IsOkUnless result NoMemory }
{
    store.reserve(1)?;
    let path = sequence_path(alloc, "commitments", &name.0, &name.1, sequence)?;
    Ok((path, closed_entry(alloc, &name.0, &name.1, channel)?))
}

// A channel that is there has a packet timed out.
fn time_out_on<A: App>(
    channels: &mut Channels,
    name: (PortId, ChannelId),
    app: &mut A,
    packet: &Packet,
) -> Result<(), Refusal>
    requires { IsSome (at pair_cmp name channels.old.pairs) }
    ensures ok { OnOk result (TimesOutOn name packet.now.sequence channels.old channels.new) }
    ensures told { TellsTimeout A.times_out name channels.old app.old packet.now result app.new }
    ensures err { IsTimeoutRefusedOn A.times_out name channels.old app.old packet.now result }
    ensures unchanged { OnErr result ((channels.new.pairs ≡ channels.old.pairs) × (app.new ≡ app.old)) }
{
    let mut channel = take(channels, &name)?;
    let settled = channel.time_out(app, packet);
    put(channels, name, channel);
    settled
}
