//! What is planned for a chain.

ghost use Rattle.std.specs.Prelude.{◌≡◌, ◌<◌, ◌++◌, [], IfOk, IfSome, OnOk, IsOkUnless};
ghost use Rattle.ibc_ids.specs.declared.refusal.Refusal.TheVariants.{NoMemory};
ghost use Rattle.ibc_machine.specs.ics18.Relay as relay;
ghost use Rattle.ibc_records.specs.ClientModels.{abstract_client};
ghost use Rattle.ibc_relayer.specs.EndPairs.{IsFoundEndPair, IsPaired, StandsInView};
ghost use Rattle.ibc_relayer.specs.Senders.{AreSenders};
ghost use Rattle.ibc_relayer.specs.UsedClients.{AreUsed, is_to_update, pending_at_ends, messages_at_ends, due_updates, update_to};
ghost use Rattle.ibc_relayer.specs.PlannedEnds.{pending_messages, GoesOverItsClient, UsesMore};

use crate::ends::{Ends, ends_of};
use crate::senders::{few_senders, is_open_or_closed, is_silent};
use ibc_ids::{ChannelId, ClientId, PortId, Refusal};
use ibc_ledger::View;
use ibc_records::{Channel, Client};
use ibc_wire::{Header, Message, UpdateClient};
use std::alloc::Global;
use std::collections::BTreeMap;

/// The clients over which messages go.
type Used = BTreeMap<ClientId, ()>;

/// The messages for the chain of `b` that prove from the chain of `a`, as both views stand (ICS 18, "Relayer algorithm"): first
/// the updates of the clients over which messages go and that don't know `a`'s height, then the packets to be received, their
/// acknowledgements and their timeouts, end by end. Nothing that was received or acknowledged is looked through. `NoMemory`
/// where a growth is refused.
pub fn plan(alloc: Global, a: &View, b: &View) -> Result<Vec<Message>, Refusal>
    ensures ok { IfOk result (λ plan. plan.items ≡ relay.plan a.now b.now) }
    ensures err { IsOkUnless result NoMemory }
{
    if a.height() == 0 {
        return Ok(Vec::new(alloc));
    }
    let mut packets = Vec::new(alloc);
    let used = plan_packets(alloc, a, b, &mut packets)?;
    let mut plan = updates(alloc, a, b, &used)?;
    plan.append(&mut packets)?;
    Ok(plan)
}

// The messages about packets, and the clients over which they go.
fn plan_packets(
    alloc: Global,
    a: &View,
    b: &View,
    messages: &mut Vec<Message>,
) -> Result<Used, Refusal>
    requires height { 0 < a.now.height }
    requires empty { messages.old.items ≡ [] }
    ensures ok { OnOk result (messages.new.items ≡ messages_at_ends a.now b.now) }
    ensures used { IfOk result (λ used. AreUsed b.now (pending_at_ends a.now b.now) used.entries) }
    ensures err { IsOkUnless result NoMemory }
{
    let senders = few_senders(alloc, a.plain(), b.plain());
    let used = plan_ends(alloc, a, b, &senders, messages);
    drop(senders);
    used
}

// The messages for the ends, and the clients over which they go.
fn plan_ends(
    alloc: Global,
    a: &View,
    b: &View,
    senders: &Option<Vec<&Channel>>,
    messages: &mut Vec<Message>,
) -> Result<Used, Refusal>
    requires height { 0 < a.now.height }
    requires senders { IfSome senders.now (λ senders. AreSenders a.now.core.channels senders.items) }
    requires empty { messages.old.items ≡ [] }
    ensures ok { OnOk result (messages.new.items ≡ messages_at_ends a.now b.now) }
    ensures used { IfOk result (λ used. AreUsed b.now (pending_at_ends a.now b.now) used.entries) }
    ensures err { IsOkUnless result NoMemory }
{
    let mut used = Used::new(alloc);
    let all = b.plain().channels();
    all.lemma_in_order();
    for (end, mine) in all.iter() {
        if let Some(ends) = busy_ends(a, b, senders, end, mine)? {
            plan_end(alloc, &ends, messages, &mut used)?;
        }
    }
    Ok(used)
}

// An end of `b` with its peer on `a`, where a message may be due there.
#[tactic(auto, using(crate::proofs::Idle::silent_none, crate::proofs::Idle::unopened_none))]
fn busy_ends<'v>(
    a: &'v View,
    b: &'v View,
    senders: &Option<Vec<&Channel>>,
    end: &'v (PortId, ChannelId),
    mine: &'v Channel,
) -> Result<Option<Ends<'v>>, Refusal>
    requires { IfSome senders.now (λ senders. AreSenders a.now.core.channels senders.items) }
    ensures ok { IfOk result (IsFoundEndPair a.now b.now end.now.0 end.now.1 mine.now) }
    ensures err { IsOkUnless result NoMemory }
{
    if !is_open_or_closed(mine) {
        return Ok(None);
    }
    if let Some(senders) = senders {
        if is_silent(senders, end, mine) {
            return Ok(None);
        }
    }
    ends_of(a, b, &end.0, &end.1, mine)
}

// The messages for an end, and its client, if there is a message.
fn plan_end(
    alloc: Global,
    ends: &Ends,
    messages: &mut Vec<Message>,
    used: &mut Used,
) -> Result<(), Refusal>
    requires height { 0 < ends.now.a.now.height }
    requires ends { IsPaired ends.now }
    requires there { StandsInView ends.now }
    ensures ok { OnOk result (messages.new.items ≡ messages.old.items ++ pending_messages ends.now) }
    ensures used { OnOk result (UsesMore ends.now used.old.entries used.new.entries) }
    ensures err { IsOkUnless result NoMemory }
{
    if !has_messages(alloc, ends, messages)? {
        return Ok(());
    }
    used.insert(ends.client.clone()?, ())?;
    Ok(())
}

// Adds the messages for an end. The result is whether there is one.
fn has_messages(alloc: Global, ends: &Ends, messages: &mut Vec<Message>) -> Result<bool, Refusal>
    requires height { 0 < ends.now.a.now.height }
    requires ends { IsPaired ends.now }
    requires there { StandsInView ends.now }
    ensures ok { OnOk result (messages.new.items ≡ messages.old.items ++ pending_messages ends.now) }
    ensures over { IfOk result (λ any. GoesOverItsClient ends.now any) }
    ensures err { IsOkUnless result NoMemory }
{
    ends.lemma_in_order();
    let before = messages.len();
    ends.plan(alloc, messages)?;
    Ok(before < messages.len())
}

// The updates of the clients that are used and don't know the height of `a`.
fn updates(alloc: Global, a: &View, b: &View, used: &Used) -> Result<Vec<Message>, Refusal>
    requires { 0 < a.now.height }
    ensures ok { IfOk result (λ updates. updates.items ≡ due_updates a.now b.now used.now.entries) }
    ensures err { IsOkUnless result NoMemory }
{
    let mut updates = Vec::new(alloc);
    for (id, client) in b.plain().clients().iter() {
        if is_told(a, used, id, client) {
            updates.push(update(a, id)?)?;
        }
    }
    Ok(updates)
}

// Whether a client is used, and doesn't know the height of `a`.
fn is_told(a: &View, used: &Used, id: &ClientId, client: &Client) -> bool
    ensures { result ≡ is_to_update a.now used.now.entries (id.now, abstract_client client.now) }
{
    used.contains_key(id) && client.consensus_state(a.height()).is_none()
}

// The update of a client by the height of `a`.
fn update(a: &View, id: &ClientId) -> Result<Message, Refusal>
    requires { 0 < a.now.height }
    ensures ok { IfOk result (λ message. message ≡ update_to a.now id.now) }
    ensures err { IsOkUnless result NoMemory }
{
    Ok(Message::UpdateClient(UpdateClient {
        client: id.clone()?,
        header: Header {
            chain: a.chain(),
            height: a.height(),
            time: a.time(),
            root: a.root(),
        },
    }))
}
