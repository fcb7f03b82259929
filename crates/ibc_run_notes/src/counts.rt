//! How often each answer came.

ghost use Rattle.std.specs.Prelude.{◌≡◌, ◌-◌, ◌^◌, IfOk, min, replicate, slice_index, sum};
ghost use Rattle.ibc_machine.specs.ledger.Ledgers.{chain_of};
ghost use Rattle.ibc_run_notes.specs.Counts.{AreSums, accepted_with, counted_at, event_tag, refused_with};

use ibc_machine::{Event, Reply};
use std::alloc::{AllocError, Global};

/// How many events were accepted, by the tags of messages, 0 for a block; and refused, by the numbers of refusals.
#[derive(Drop)]
pub struct AnswerCounts {
    pub accepted: Vec<u64>,
    pub refused: Vec<u64>,
}

/// The number of an event's chain.
pub fn chain_of(event: &Event) -> u8
    ensures { result ≡ chain_of event.now }
{
    match event {
        Event::Message { chain, .. } => *chain,
        Event::Block { chain, .. } => *chain,
    }
}

/// The tag of an event's message, 0 for a block.
pub fn tag_of(event: &Event) -> u8
    ensures { result ≡ event_tag event.now }
{
    match event {
        Event::Message { message, .. } => message.kind().tag(),
        Event::Block { .. } => 0,
    }
}

impl AnswerCounts {
    /// Nothing is counted yet. Error: no memory.
    pub fn new(alloc: Global) -> Result<AnswerCounts, AllocError>
        ensures accepted { IfOk result (λ counts. counts.accepted.items ≡ replicate 20 0) }
        ensures refused { IfOk result (λ counts. counts.refused.items ≡ replicate 32 0) }
    {
        let accepted = vec![in alloc; 0; 20]?;
        let refused = vec![in alloc; 0; 32]?;
        Ok(AnswerCounts { accepted, refused })
    }

    /// Counts a reply to an event of this tag.
    pub fn add(&mut self, tag: u8, reply: &Reply)
        ensures accepted { self.new.accepted.items ≡ accepted_with tag reply.now self.old.accepted.items }
        ensures refused { self.new.refused.items ≡ refused_with reply.now self.old.refused.items }
    {
        match reply {
            Reply::Ok(_) => add_one(self.accepted.as_mut_slice(), tag),
            Reply::No(refusal) => add_one(self.refused.as_mut_slice(), refusal.number()),
        }
    }

    /// Adds what others counted, at each place that both have.
    pub fn add_all(&mut self, others: &AnswerCounts)
        ensures accepted { AreSums self.old.accepted.items others.now.accepted.items self.new.accepted.items }
        ensures refused { AreSums self.old.refused.items others.now.refused.items self.new.refused.items }
    {
        add_each(self.accepted.as_mut_slice(), others.accepted.as_slice());
        add_each(self.refused.as_mut_slice(), others.refused.as_slice());
    }

    /// How many events were refused, at most 2^64 - 1.
    pub fn refused_in_all(&self) -> u64
        ensures { result ≡ min (sum self.now.refused.items) (2 ^ 64 - 1) }
    {
        sum_of(self.refused.as_slice())
    }
}

// Counts one more at a place.
#[tactic(auto, using(std::proofs::lemmas::List::set_past))]
fn add_one(counts: &mut [u64], place: u8)
    ensures { counts.new ≡ counted_at place counts.old }
{
    let at = usize::from(place);
    if at >= counts.len() {
        return;
    }
    counts[at] = counts[at].saturating_add(1);
}

// Adds to each count the other one at its place.
fn add_each(counts: &mut [u64], others: &[u64])
    ensures { AreSums counts.old others.now counts.new }
{
    for place in 0..counts.len() {
        counts[place] = counts[place].saturating_add(count_at(others, place));
    }
}

// The count at a place, 0 where there is none.
#[tactic(auto, using(std::proofs::lemmas::List::get_or_past))]
fn count_at(counts: &[u64], place: usize) -> u64
    ensures { result ≡ slice_index counts.now place }
{
    if place >= counts.len() {
        return 0;
    }
    counts[place]
}

fn sum_of(counts: &[u64]) -> u64
    ensures { result ≡ min (sum counts.now) (2 ^ 64 - 1) }
{
    let mut sum: u64 = 0;
    for count in counts {
        sum = sum.saturating_add(*count);
    }
    sum
}
