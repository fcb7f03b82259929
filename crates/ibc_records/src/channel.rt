//! An end of a channel with its counters and its packets.

ghost use Rattle.std.specs.Prelude.{◌≡◌, ◌-◌, ◌^◌, ◌<◌, ◌≤◌, true, Ok, IfOk, OnOk, OnErr, IsTrue, option_copied, IsOkUnless};
ghost use Rattle.std.specs.FinMap.{is_sorted};
ghost use Rattle.std.specs.Ordering.{nat_cmp};
ghost use Rattle.ibc_ids.specs.Maps.{at, without};
ghost use Rattle.ibc_ids.specs.declared.refusal.Refusal.TheVariants.{NoMemory};
ghost use Rattle.ibc_machine.specs.chain.Records.{is_one_of};
ghost use Rattle.ibc_machine.specs.ics04.Channels.{new_channel};
ghost use Rattle.ibc_machine.specs.ics04.Packets.{is_ordered, after_send, after_receive, after_ack, after_timeout};
ghost use Rattle.ibc_machine.specs.ics24.Values.{value_bytes, AckIs};
ghost use Rattle.ibc_records.specs.AppAnswers.{AnswersPacket};
ghost use Rattle.ibc_records.specs.WhyRefused.{IsRefusedAs};

use crate::acknowledgement::{AckCopies, AckRoom};
use crate::commitment::Commitment;
use crate::{App, Pays};
use ibc_ids::{Bytes, Refusal};
use ibc_maps::{Pairs, SharedMap};
use ibc_wire::{ChannelEnd, ChannelState, Order, Packet};
use std::alloc::{AllocError, Global};
use std::marker::Model;

/// An end of a channel with its three counters (ICS 4, "Channel paths"): the sequences of the packet that it sends next,
/// that it receives next, and whose acknowledgement it takes next. Sequences count from 1. And with its packets, by their
/// sequences: what is committed of those that it sent and that aren't settled, the receipts of those that it received in
/// any order, and the acknowledgements that it wrote.
#[derive(Drop, Debug)]
pub struct Channel {
    end: ChannelEnd,
    next_send: u64,
    next_recv: u64,
    next_ack: u64,
    commitments: SharedMap<u64, Commitment>,
    receipts: SharedMap<u64, ()>,
    acks: SharedMap<u64, Bytes>,
}

impl Model for Channel {
    ghost use Rattle.std.specs.Map.{keys_of};
    ghost use Rattle.ibc_machine.specs.chain.Records.{Channel as PlainChannel};

    ghost Value = { PlainChannel };

    ghost view = { λ channel. record {
      end = channel.end;
      next_send = channel.next_send;
      next_recv = channel.next_recv;
      next_ack = channel.next_ack;
      commitments = channel.commitments.pairs;
      receipts = keys_of channel.receipts.pairs;
      acks = channel.acks.pairs;
    } };
}

impl Channel {
    /// A channel with this end, whose three counters are 1 (ICS 4, "chanOpenInit" and "chanOpenTry"), and which has no
    /// packets.
    pub fn new(alloc: Global, end: ChannelEnd) -> Channel
        ensures { result ≡ new_channel end }
    {
        Channel {
            end,
            next_send: 1,
            next_recv: 1,
            next_ack: 1,
            commitments: SharedMap::new(alloc),
            receipts: SharedMap::new(alloc),
            acks: SharedMap::new(alloc),
        }
    }

    /// The end.
    pub fn end(&self) -> &ChannelEnd
        ensures { result.now ≡ self.now.end }
    {
        &self.end
    }

    /// The sequence of the packet that is sent next.
    pub fn next_send(&self) -> u64
        ensures { result ≡ self.now.next_send }
    {
        self.next_send
    }

    /// The sequence of the packet that is received next, where the channel is ordered.
    pub fn next_recv(&self) -> u64
        ensures { result ≡ self.now.next_recv }
    {
        self.next_recv
    }

    /// The sequence of the packet whose acknowledgement is taken next, where the channel is ordered.
    pub fn next_ack(&self) -> u64
        ensures { result ≡ self.now.next_ack }
    {
        self.next_ack
    }

    /// The packets come in their order.
    pub fn is_ordered(&self) -> bool
        ensures { result ≡ is_ordered self.now }
    {
        self.end.order == Order::Ordered
    }

    /// What is committed of the packet of a sequence, or none.
    pub fn commitment(&self, sequence: u64) -> Option<&Commitment>
        ensures { option_copied result ≡ at nat_cmp sequence self.now.commitments }
    {
        self.commitments.get(&sequence)
    }

    /// What is committed of the packets that were sent and aren't settled, in the order of their sequences.
    pub fn commitments(&self) -> Pairs<'_, u64, Commitment>
        ensures { result ≡ self.now.commitments }
    {
        self.commitments.iter()
    }

    /// What is committed is in the order of the sequences.
    pub fn lemma_is_in_order(&self)
        ensures { IsTrue (is_sorted nat_cmp self.now.commitments) }
    {
        self.commitments.lemma_in_order();
    }

    /// The packet of a sequence was received, where they come in any order.
    pub fn has_receipt(&self, sequence: u64) -> bool
        ensures { result ≡ is_one_of self.now.receipts sequence }
    {
        self.receipts.get(&sequence).is_some()
    }

    /// The acknowledgement of the packet of a sequence that was received, or none.
    pub fn ack(&self, sequence: u64) -> Option<&Bytes>
        ensures { option_copied result ≡ at nat_cmp sequence self.now.acks }
    {
        self.acks.get(&sequence)
    }

    /// Sets the end, and leaves the counters and the packets.
    pub fn set_end(&mut self, end: ChannelEnd)
        ensures { self.new ≡ record self.old { end = end } }
    {
        self.end = end;
    }

    /// Lets the payer pay, commits to a packet under the next sequence, and counts on (ICS 4, "sendPacket"). What the
    /// payer refuses; `NoMemory` where a growth is refused. The channel and the payer are then as before.
    pub(crate) fn send<Bill, P: Pays<Bill>>(
        &mut self,
        payer: &mut P,
        bill: &Bill,
        commitment: Commitment,
    ) -> Result<(), Refusal>
        requires { self.old.next_send < 2 ^ 64 - 1 }
        ensures ok { OnOk result (self.new ≡ after_send commitment self.old) }
        ensures paid { OnOk result (P.pays payer.old bill.now ≡ Ok payer.new) }
        ensures err { IsRefusedAs (P.pays payer.old bill.now) result }
        ensures unchanged { OnErr result ((self.new ≡ self.old) × (payer.new ≡ payer.old)) }
    {
        self.commitments.reserve(1)?;
        payer.pay(bill)?;
        let _ = self.commitments.set(self.next_send, commitment);
        self.next_send += 1;
        Ok(())
    }

    /// Asks the application what it acknowledges a packet with, and keeps the acknowledgement; an ordered channel counts
    /// on, another keeps a receipt (ICS 4, "recvPacket"). `NoMemory` where a growth is refused; the channel and the
    /// application are then as before.
    pub(crate) fn receive<A: App>(
        &mut self,
        app: &mut A,
        packet: &Packet,
        room: &mut AckRoom,
    ) -> Result<AckCopies, Refusal>
        requires counter { is_ordered self.old ≡ true → self.old.next_recv < 2 ^ 64 - 1 }
        requires room { 1024 ≤ room.old }
        ensures answer { AnswersPacket A.receives app.old self.old.end.version packet.now result app.new }
        ensures copy { IfOk result (λ acks. acks.copy ≡ acks.reply) }
        ensures value { IfOk result (λ acks. acks.value ≡ value_bytes (AckIs acks.reply)) }
        ensures ok { IfOk result (λ a. self.new ≡ after_receive packet.now.sequence a.reply self.old) }
        ensures err { IsOkUnless result NoMemory }
        ensures unchanged { OnErr result ((self.new ≡ self.old) × (app.new ≡ app.old)) }
    {
        let in_order = self.is_ordered();
        self.acks.reserve(1)?;
        self.receipts.reserve(1)?;
        let ack = app.on_recv(&self.end.version, packet)?;
        let copies = room.fill(ack.as_slice());
        let _ = self.acks.set(packet.sequence, ack);
        if in_order {
            self.next_recv += 1;
        } else {
            let _ = self.receipts.set(packet.sequence, ());
        }
        Ok(copies)
    }

    /// Tells the application an acknowledgement, and removes the commitment of the packet; an ordered channel counts on (ICS 4,
    /// "acknowledgePacket"). What the application refuses; `NoMemory` where a growth is refused. The channel and the application
    /// are then as before.
    pub(crate) fn acknowledge<A: App>(
        &mut self,
        app: &mut A,
        packet: &Packet,
        ack: &[u8],
    ) -> Result<(), Refusal>
        requires { is_ordered self.old ≡ true → self.old.next_ack < 2 ^ 64 - 1 }
        ensures ok { OnOk result (self.new ≡ after_ack packet.now.sequence self.old) }
        ensures told { OnOk result (A.is_acknowledged app.old self.old.end.version packet.now ack.now ≡ Ok app.new) }
        ensures err { IsRefusedAs (A.is_acknowledged app.old self.old.end.version packet.now ack.now) result }
        ensures unchanged { OnErr result ((self.new ≡ self.old) × (app.new ≡ app.old)) }
    {
        make_room(&mut self.commitments)?;
        app.on_ack(&self.end.version, packet, ack)?;
        take_out(&mut self.commitments, packet.sequence);
        if self.end.order == Order::Ordered {
            self.next_ack += 1;
        }
        Ok(())
    }

    /// Tells the application that a packet won't be received any more, and removes its commitment; an ordered channel is closed
    /// (ICS 4, "timeoutPacket"). What the application refuses; `NoMemory` where a growth is refused. The channel and the
    /// application are then as before.
    pub(crate) fn time_out<A: App>(&mut self, app: &mut A, packet: &Packet) -> Result<(), Refusal>
        ensures ok { OnOk result (self.new ≡ after_timeout packet.now.sequence self.old) }
        ensures told { OnOk result (A.times_out app.old self.old.end.version packet.now ≡ Ok app.new) }
        ensures err { IsRefusedAs (A.times_out app.old self.old.end.version packet.now) result }
        ensures unchanged { OnErr result ((self.new ≡ self.old) × (app.new ≡ app.old)) }
    {
        make_room(&mut self.commitments)?;
        app.on_timeout(&self.end.version, packet)?;
        take_out(&mut self.commitments, packet.sequence);
        if self.end.order == Order::Ordered {
            self.end.state = ChannelState::Closed;
        }
        Ok(())
    }
}

impl Clone for Channel {
    ghost is_clone = { λ channel copy. copy ≡ channel };

    fn clone(&self) -> Result<Channel, AllocError> {
        Ok(Channel {
            end: self.end.clone()?,
            next_send: self.next_send,
            next_recv: self.next_recv,
            next_ack: self.next_ack,
            commitments: self.commitments.copy()?,
            receipts: self.receipts.copy()?,
            acks: self.acks.copy()?,
        })
    }
}

// Makes room to remove a commitment.
fn make_room(commitments: &mut SharedMap<u64, Commitment>) -> Result<(), AllocError>
    ensures pairs { commitments.new.pairs ≡ commitments.old.pairs }
    ensures ok { OnOk result (0 < commitments.new.room) }
{
    commitments.reserve(1)
}

// Removes a commitment.
fn take_out(commitments: &mut SharedMap<u64, Commitment>, sequence: u64)
    requires { 0 < commitments.old.room }
    ensures { commitments.new.pairs ≡ without nat_cmp sequence commitments.old.pairs }
{
    let _ = commitments.remove(sequence);
}
