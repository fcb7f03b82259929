//! What happens in a world is looked at, event by event.

ghost use Rattle.std.specs.Prelude.{◌≡◌, ◌++◌, ℕ, IfOk, OnOk, true};
ghost use Rattle.ibc_wire.specs.declared.records.Order.TheVariants.{Ordered};
ghost use Rattle.ibc_machine.specs.ics24.Values.{same_order};
ghost use Rattle.ibc_machine.specs.promises.Laws.{settles};
ghost use Rattle.ibc_law_checks.specs.MadeEnds.{made_lanes};
ghost use Rattle.ibc_law_checks.specs.ToldEntries.{IsToldOfRefusal, is_poor};
ghost use Rattle.ibc_law_checks.specs.TouchedPlaces.{settled_places};
ghost use Rattle.ibc_law_checks.specs.Looks.{NotesMadeEnd, NotesEnd, NotesLane, LookMovesLanes, EntryMovesLanes, EntrySetsPlaces, EntryIsTold, EventMovesLanes, EventSetsPlaces, EventIsTold, BlockSetsPlaces, BlockIsTold, TokensAreTold, MessageMovesLanes, MessageSetsPlaces};

mod carrying;
mod moving;
mod reads;
mod told;

use crate::ends::{ChainClock, EndNotes, first_clocks, home_supplies};
use crate::made::{MadeEnd, made_in};
use crate::{Finding, HomeSupply, Lane, TokenPlace, first_changed_supply, first_unbalanced};
use carrying::{leave_all, note_sent_tokens};
use ibc_ids::Refusal;
use ibc_machine::{Effect, Entry, Event, Genesis, Reply};
use ibc_wire::{Message, Order};
use ibc_world_core::World;
use std::alloc::{AllocError, Global};

/// What has happened in a world so far, as its histories tell it: the ends of channels; of each the
/// lane to its peer; the chains' clocks, where tokens went out, and what the chains began with.
#[derive(Drop)]
pub struct LawChecks {
    alloc: Global,
    pub ends: Vec<EndNotes>,
    pub lanes: Vec<Lane>,
    pub clocks: Vec<ChainClock>,
    pub places: Vec<TokenPlace>,
    pub supplies: Vec<HomeSupply>,
}

// Whether an order is that of ordered channels.
fn is_ordered(order: Order) -> bool
    ensures { result ≡ same_order order Ordered }
{
    order == Order::Ordered
}

// Whether an account holds too little.
fn is_poor(refusal: Refusal) -> bool
    ensures { result ≡ is_poor refusal }
{
    match refusal {
        Refusal::Poor => true,
        _ => false,
    }
}

// Whether an event settles a packet.
fn settles(event: &Event) -> bool
    ensures { result ≡ settles event.now }
{
    match event {
        Event::Message { message, .. } => is_settling(message),
        Event::Block { .. } => false,
    }
}

// Whether a message settles a packet.
fn is_settling(message: &Message) -> bool
    ensures { (chain : ℕ) → result ≡ settles (Event.Message chain message.now) }
{
    match message {
        Message::AckPacket(_) | Message::Timeout(_) | Message::TimeoutOnClose(_) => true,
        _ => false,
    }
}

impl LawChecks {
    /// What is known of a world that has just begun. Error: no memory.
    pub fn new(alloc: Global, genesis: &Genesis) -> Result<LawChecks, AllocError> {
        let clocks = first_clocks(alloc, genesis)?;
        match home_supplies(alloc, genesis) {
            Ok(supplies) => Ok(LawChecks {
                alloc,
                ends: Vec::new(alloc),
                lanes: Vec::new(alloc),
                clocks,
                places: Vec::new(alloc),
                supplies,
            }),
            Err(error) => {
                drop(clocks);
                Err(error)
            }
        }
    }

    /// Looks at the last entry of a chain, which has just come. An end of a channel that it made is noted, and nothing has gone
    /// over its lane yet. The packet that the entry moves goes over its lane, unless that breaks a law, which is told then. The
    /// places of the end and of its peer are touched. Where a block has ended, they are all looked at. Refused: `NoMemory`; what
    /// is noted then is of no use.
    pub fn look(
        &mut self,
        world: &World,
        chain: u8,
        entry: &Entry,
    ) -> Result<Option<Finding>, Refusal>
        ensures ends { IfOk result (λ _. NotesMadeEnd self.old chain entry.now self.new) }
        ensures lanes { LookMovesLanes world.now chain entry.now self.old result self.new }
        ensures places { EntrySetsPlaces world.now chain entry.now self.old result self.new }
        ensures told { EntryIsTold world.now entry.now self.old result }
    {
        self.note_made(chain, entry)?;
        self.look_at(world, chain, entry)
    }

    // Notes the end of a channel that an entry made.
    fn note_made(&mut self, chain: u8, entry: &Entry) -> Result<(), Refusal>
        ensures ends { OnOk result (NotesMadeEnd self.old chain entry.now self.new) }
        ensures lanes { OnOk result (self.new.lanes.items ≡ self.old.lanes.items ++ made_lanes entry.now) }
        ensures clocks { self.new.clocks ≡ self.old.clocks }
        ensures places { self.new.places ≡ self.old.places }
        ensures supplies { self.new.supplies ≡ self.old.supplies }
    {
        match made_in(entry) {
            Some(made) => self.note_end(chain, made),
            None => Ok(()),
        }
    }

    // Notes a new end of a channel.
    #[tactic(auto, using(crate::proofs::NotedEnds::ends_push))]
    fn note_end(&mut self, chain: u8, made: MadeEnd<'_>) -> Result<(), Refusal>
        ensures ends { OnOk result (NotesEnd self.old chain made.entry self.new) }
        ensures lanes { OnOk result (NotesLane self.old made.entry.order self.new) }
        ensures clocks { self.new.clocks ≡ self.old.clocks }
        ensures places { self.new.places ≡ self.old.places }
        ensures supplies { self.new.supplies ≡ self.old.supplies }
    {
        let ordered = is_ordered(made.order);
        let port = made.port.clone()?;
        let channel = made.channel.clone()?;
        let notes = EndNotes {
            chain,
            port,
            channel,
            ordered,
        };
        self.ends.push(notes)?;
        self.lanes.push(Lane::new(self.alloc, ordered))?;
        Ok(())
    }

    /// Looks at all places and all supplies, whether anything moved there or not. Where nothing is told they are as they must be,
    /// and else one isn't. Refused: `NoMemory`.
    pub fn look_at_all(&mut self, world: &World) -> Result<Option<Finding>, Refusal>
        ensures { TokensAreTold world.now true self.old result }
    {
        self.look_at_tokens(world, true)
    }

    // Looks at the places where something moved, or at all, and at all supplies.
    fn look_at_tokens(&mut self, world: &World, all: bool) -> Result<Option<Finding>, Refusal>
        ensures same { self.new.ends ≡ self.old.ends }
        ensures lanes { self.new.lanes ≡ self.old.lanes }
        ensures places { IfOk result (λ f. self.new.places.items ≡ settled_places f self.old.places.items) }
        ensures told { TokensAreTold world.now all self.old result }
    {
        if let Some(index) = first_unbalanced(world, self.places.as_slice(), all)? {
            return Ok(Some(self.of_place(index)?));
        }
        if let Some(index) = first_changed_supply(world, self.supplies.as_slice()) {
            return Ok(Some(self.of_supply(index)?));
        }
        leave_all(self.places.as_mut_slice());
        Ok(None)
    }

    // Looks at an entry.
    fn look_at(
        &mut self,
        world: &World,
        chain: u8,
        entry: &Entry,
    ) -> Result<Option<Finding>, Refusal>
        ensures same { self.new.ends ≡ self.old.ends }
        ensures lanes { EntryMovesLanes world.now chain entry.now self.old result self.new }
        ensures places { EntrySetsPlaces world.now chain entry.now self.old result self.new }
        ensures told { EntryIsTold world.now entry.now self.old result }
    {
        match &entry.reply {
            Reply::Ok(effect) => self.look_at_accepted(world, chain, &entry.event, effect),
            Reply::No(refusal) => self.look_at_refused(chain, &entry.event, *refusal),
        }
    }

    // Looks at an event that was accepted.
    fn look_at_accepted(
        &mut self,
        world: &World,
        chain: u8,
        event: &Event,
        effect: &Effect,
    ) -> Result<Option<Finding>, Refusal>
        ensures same { self.new.ends ≡ self.old.ends }
        ensures lanes { EventMovesLanes world.now chain event.now effect.now self.old result self.new }
        ensures places { EventSetsPlaces world.now chain event.now effect.now self.old result self.new }
        ensures told { EventIsTold world.now event.now effect.now self.old result }
    {
        match event {
            Event::Message { message, .. } => self.look_at_message(world, chain, message, effect),
            Event::Block { next_time, .. } => self.look_at_block(world, chain, *next_time, effect),
        }
    }

    // Looks at a block that was accepted.
    fn look_at_block(
        &mut self,
        world: &World,
        chain: u8,
        time: u64,
        effect: &Effect,
    ) -> Result<Option<Finding>, Refusal>
        ensures same { self.new.ends ≡ self.old.ends }
        ensures lanes { self.new.lanes ≡ self.old.lanes }
        ensures places { BlockSetsPlaces effect.now self.old result self.new }
        ensures told { BlockIsTold world.now effect.now self.old result }
    {
        match effect {
            Effect::Block(height, _) => {
                self.note_block(chain, *height, time);
                self.look_at_tokens(world, false)
            }
            _ => Ok(None),
        }
    }

    // Looks at an event that was refused.
    fn look_at_refused(
        &mut self,
        chain: u8,
        event: &Event,
        refusal: Refusal,
    ) -> Result<Option<Finding>, Refusal>
        ensures same { self.new.ends ≡ self.old.ends }
        ensures lanes { self.new.lanes ≡ self.old.lanes }
        ensures places { self.new.places ≡ self.old.places }
        ensures told { IfOk result (IsToldOfRefusal event.now refusal) }
    {
        if is_poor(refusal) && settles(event) {
            return Ok(Some(self.of_refund(chain)?));
        }
        Ok(None)
    }

    // Notes a block that has ended.
    fn note_block(&mut self, chain: u8, height: u64, time: u64)
        ensures ends { self.new.ends ≡ self.old.ends }
        ensures lanes { self.new.lanes ≡ self.old.lanes }
        ensures places { self.new.places ≡ self.old.places }
        ensures supplies { self.new.supplies ≡ self.old.supplies }
    {
        if let Some(clock) = self.clocks.as_mut_slice().get_mut(usize::from(chain)) {
            *clock = ChainClock { height, time };
        }
    }

    // Looks at a message that was accepted.
    fn look_at_message(
        &mut self,
        world: &World,
        chain: u8,
        message: &Message,
        effect: &Effect,
    ) -> Result<Option<Finding>, Refusal>
        ensures same { self.new.ends ≡ self.old.ends }
        ensures lanes { MessageMovesLanes world.now chain message.now effect.now self.old result self.new }
        ensures places { MessageSetsPlaces world.now chain message.now effect.now self.old result self.new }
    {
        let movement = self.moved_by(world, chain, message, effect)?;
        match note_sent_tokens(&mut self.places, chain, message) {
            Ok(()) => self.carry_out(world, chain, message, movement),
            Err(error) => {
                drop(movement);
                Err(Refusal::from(error))
            }
        }
    }
}
