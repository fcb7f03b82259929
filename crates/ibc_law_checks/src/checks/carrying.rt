//! Packets pass over lanes, and places are touched where something moved.

ghost use Rattle.std.specs.Prelude.{◌≡◌, IfOk, OnErr, OnOk, map};
ghost use Rattle.std.specs.List.{list_any};
ghost use Rattle.ibc_law_checks.specs.MovedLanes.{AreMoved, ArePassed};
ghost use Rattle.ibc_law_checks.specs.TouchedPlaces.{is_place, is_place_of, left_alone, touched_at, touched_by, with_place, with_places, with_sent_tokens};
ghost use Rattle.ibc_law_checks.specs.Looks.{PassesOrTells, TouchesBy, TouchesEnd, TouchesIfAny};

use super::told::{if_broken, of_message};
use crate::{EndNotes, Finding, Lane, LawChecks, Movement, PacketLaw, Passing, TokenPlace};
use ibc_ids::{ChannelId, Denom, Refusal};
use ibc_wire::{Message, Packet, Token};
use ibc_world_core::World;
use std::alloc::AllocError;

// Has a packet pass so over the lane at a place, where that breaks no law. Error: no memory.
fn pass_over(
    lanes: &mut [Lane],
    place: usize,
    passing: Passing,
    packet: &Packet,
) -> Result<Option<PacketLaw>, AllocError>
    ensures ok { IfOk result (λ told. ArePassed passing packet.now place lanes.old told lanes.new) }
    ensures err { OnErr result (lanes.new ≡ lanes.old) }
{
    if place >= lanes.len() {
        return Ok(None);
    }
    let told = lanes[place].pass(passing, packet)?;
    Ok(told)
}

// Whether a place is one of an end.
fn is_place_of(place: &TokenPlace, end: &EndNotes) -> bool
    ensures { result ≡ is_place_of end.now place.now }
{
    place.chain == end.chain && place.channel == end.channel
}

// Notes that something moved at a place, where it is one of an end.
fn touch_place(place: &mut TokenPlace, end: &EndNotes)
    ensures { place.new ≡ touched_by end.now place.old }
{
    if is_place_of(place, end) {
        place.touched = true;
    }
}

// Notes that something moved at the places of an end.
fn touch_by(places: &mut [TokenPlace], end: &EndNotes)
    ensures { places.new ≡ map (touched_by end.now) places.old }
{
    for place in places.iter_mut() {
        touch_place(place, end);
    }
}

// Notes that something moved at the end at a place, where there is one.
fn touch_at(places: &mut [TokenPlace], ends: &[EndNotes], at: usize)
    ensures { places.new ≡ touched_at ends.now at places.old }
{
    if let Some(end) = ends.get(at) {
        touch_by(places, end);
    }
}

/// Notes that nothing has moved since all was looked at.
pub(super) fn leave_all(places: &mut [TokenPlace])
    ensures { places.new ≡ map left_alone places.old }
{
    for place in places.iter_mut() {
        place.touched = false;
    }
}

// Whether a place is of this chain, channel and denomination.
fn is_place(place: &TokenPlace, chain: u8, channel: &ChannelId, denom: &Denom) -> bool
    ensures { result ≡ is_place chain channel.now denom.now place.now }
{
    place.chain == chain && place.channel == *channel && place.denom == *denom
}

// Whether one of the places is of this chain, channel and denomination.
fn has_place(places: &[TokenPlace], chain: u8, channel: &ChannelId, denom: &Denom) -> bool
    ensures { result ≡ list_any (is_place chain channel.now denom.now) places.now }
{
    places
        .iter()
        .any(|place| is_place(place, chain, channel, denom))
}

// Notes a denomination that went out over a channel, unless it is noted. Error: no memory.
fn note_place(
    places: &mut Vec<TokenPlace>,
    chain: u8,
    channel: &ChannelId,
    denom: &Denom,
) -> Result<(), AllocError>
    ensures { OnOk result (places.new.items ≡ with_place chain channel.now places.old.items denom.now) }
{
    if has_place(places.as_slice(), chain, channel, denom) {
        return Ok(());
    }
    let channel = channel.clone()?;
    let denom = denom.clone()?;
    places.push(TokenPlace {
        chain,
        channel,
        denom,
        touched: true,
    })?;
    Ok(())
}

// Notes the denominations of tokens that went out over a channel. Error: no memory.
fn note_places(
    places: &mut Vec<TokenPlace>,
    chain: u8,
    channel: &ChannelId,
    tokens: &[Token],
) -> Result<(), AllocError>
    ensures { OnOk result (places.new.items ≡ with_places chain channel.now tokens.now places.old.items) }
{
    for token in tokens {
        note_place(places, chain, channel, &token.denom)?;
    }
    Ok(())
}

/// Notes the denominations that an accepted message sends. Error: no memory.
pub(super) fn note_sent_tokens(
    places: &mut Vec<TokenPlace>,
    chain: u8,
    message: &Message,
) -> Result<(), AllocError>
    ensures { OnOk result (places.new.items ≡ with_sent_tokens chain message.now places.old.items) }
{
    match message {
        Message::Transfer(message) => note_place(places, chain, &message.channel, &message.denom),
        Message::TransferMany(message) => {
            note_places(places, chain, &message.channel, message.tokens.as_slice())
        }
        _ => Ok(()),
    }
}

impl LawChecks {
    /// Moves what an accepted message moves. The result is what was found. Refused: `NoMemory`; what was touched then stays so.
    pub(super) fn carry_out(
        &mut self,
        world: &World,
        chain: u8,
        message: &Message,
        movement: Movement,
    ) -> Result<Option<Finding>, Refusal>
        ensures same { self.new.ends ≡ self.old.ends }
        ensures lanes { IfOk result (λ f. AreMoved movement self.old.lanes.items f self.new.lanes.items) }
        ensures places { IfOk result (λ found. TouchesBy world.now movement self.old self.new) }
    {
        match movement {
            Movement::Nothing => Ok(None),
            Movement::Breaks { law, end } => {
                self.touch_if(world, end)?;
                Ok(Some(of_message(self.alloc, law, chain, message)?))
            }
            Movement::Passes {
                lane,
                passing,
                packet,
            } => {
                let passed = self.pass(world, chain, lane, passing, &packet);
                drop(packet);
                passed
            }
        }
    }

    // Has a packet pass over a lane, or tells the law that it would break. Refused: `NoMemory`.
    #[tactic(auto, using(crate::proofs::PassedLanes::told_together))]
    fn pass(
        &mut self,
        world: &World,
        chain: u8,
        lane: usize,
        passing: Passing,
        packet: &Packet,
    ) -> Result<Option<Finding>, Refusal>
        ensures same { self.new.ends ≡ self.old.ends }
        ensures lanes { PassesOrTells passing packet.now lane self.old result self.new }
        ensures places { IfOk result (λ found. TouchesEnd world.now lane self.old self.new) }
    {
        self.touch(world, lane)?;
        let told = pass_over(self.lanes.as_mut_slice(), lane, passing, packet)?;
        Ok(if_broken(self.alloc, told, chain, packet)?)
    }

    // Notes that something moved at an end, where it did. Refused: `NoMemory`.
    fn touch_if(&mut self, world: &World, end: Option<usize>) -> Result<(), Refusal>
        ensures same { self.new.ends ≡ self.old.ends }
        ensures lanes { self.new.lanes ≡ self.old.lanes }
        ensures places { OnOk result (TouchesIfAny world.now end self.old self.new) }
    {
        match end {
            Some(own) => self.touch(world, own),
            None => Ok(()),
        }
    }

    // Notes that something moved between an end and its peer. Refused: `NoMemory`.
    fn touch(&mut self, world: &World, own: usize) -> Result<(), Refusal>
        ensures same { self.new.ends ≡ self.old.ends }
        ensures lanes { self.new.lanes ≡ self.old.lanes }
        ensures places { OnOk result (TouchesEnd world.now own self.old self.new) }
    {
        let peer = self.peer_of(world, own)?;
        touch_at(self.places.as_mut_slice(), self.ends.as_slice(), own);
        match peer {
            Some(peer) => {
                touch_at(self.places.as_mut_slice(), self.ends.as_slice(), peer);
                Ok(())
            }
            None => Ok(()),
        }
    }
}
