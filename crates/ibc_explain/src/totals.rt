//! What channels have at the end of a run.

ghost use Rattle.std.specs.Prelude.{All, IfOk, OnOk};
ghost use Rattle.ibc_explain.specs.Balances.{IsTotalOf};

use crate::ScriptRun;
use crate::text::name_of;
use ibc_ids::{ChannelId, Denom, Refusal};
use ibc_machine::{Effect, Entry, Event, Reply, Totals};
use ibc_script::ChainName;
use ibc_wire::Message;
use ibc_world_core::{World, balanced_totals};
use std::alloc::{AllocError, Global};

/// A denomination that went out over a channel of a chain.
#[derive(Clone, Copy)]
struct SentDenom<'e> {
    chain: u8,
    channel: &'e ChannelId,
    denom: &'e Denom,
}

/// What a channel of a chain has of a denomination.
#[derive(Clone, Copy)]
pub struct ChannelTotal<'e> {
    pub chain: u8,
    pub channel: &'e ChannelId,
    pub denom: &'e Denom,
    pub totals: Totals,
}

impl ChannelTotal<'_> {
    /// Writes a line of it: what the chain holds in escrow, what the peer has of it, and what is under way.
    pub fn write(&self, out: &mut String, names: &[ChainName]) -> Result<(), AllocError> {
        let chain = name_of(names, self.chain);
        let channel = self.channel.as_str();
        let denom = self.denom.as_str();
        let Totals {
            escrow,
            vouchers,
            out: going,
            back,
        } = self.totals;
        write!(
            out,
            "total {chain} {channel} {denom}: escrow {escrow} = vouchers {vouchers}"
        )?;
        writeln!(out, " + under way {going} + on the way back {back}")
    }
}

/// What each channel of port `transfer` has of each denomination that its chain sent over it, and that didn't come over it.
/// Refused: `NoMemory`.
pub fn totals_of(alloc: Global, run: &ScriptRun) -> Result<Vec<ChannelTotal<'_>>, Refusal>
    ensures { IfOk result (λ list. All (IsTotalOf run.now.world) list.items) }
{
    let found = sent_denoms(alloc, run)?;
    let mut list = Vec::new(alloc);
    for sent in found.as_slice() {
        add_total(&run.world, *sent, &mut list)?;
    }
    Ok(list)
}

// Adds what a channel has of a denomination, where it tells that.
fn add_total<'e>(
    world: &World,
    sent: SentDenom<'e>,
    list: &mut Vec<ChannelTotal<'e>>,
) -> Result<(), Refusal>
    requires { All (IsTotalOf world.now) list.old.items }
    ensures { OnOk result (All (IsTotalOf world.now) list.new.items) }
{
    match total_of(world, sent) {
        Ok(total) => {
            list.push(total)?;
            Ok(())
        }
        Err(Refusal::NoMemory) => Err(Refusal::NoMemory),
        Err(_) => Ok(()),
    }
}

// What a channel has of a denomination.
fn total_of<'e>(world: &World, sent: SentDenom<'e>) -> Result<ChannelTotal<'e>, Refusal>
    ensures { IfOk result (IsTotalOf world.now) }
{
    let totals = balanced_totals(world, sent.chain, sent.channel, sent.denom)?;
    Ok(ChannelTotal {
        chain: sent.chain,
        channel: sent.channel,
        denom: sent.denom,
        totals,
    })
}
// The denominations that went out over channels, each once.
fn sent_denoms(alloc: Global, run: &ScriptRun) -> Result<Vec<SentDenom<'_>>, Refusal> {
    let mut found = Vec::new(alloc);
    for chain in 0..run.names.len() {
        if let Some(ledger) = run.world.ledger(chain as u8) {
            for stamped in ledger.history() {
                note_sent(&mut found, chain as u8, &stamped.entry)?;
            }
        }
    }
    Ok(found)
}

// Notes what an entry has sent.
fn note_sent<'e>(
    found: &mut Vec<SentDenom<'e>>,
    chain: u8,
    entry: &'e Entry,
) -> Result<(), Refusal> {
    let (Event::Message { message, .. }, Reply::Ok(Effect::Sent(_))) = (&entry.event, &entry.reply)
    else {
        return Ok(());
    };
    match message {
        Message::Transfer(message) => note_denom(
            found,
            SentDenom {
                chain,
                channel: &message.channel,
                denom: &message.denom,
            },
        ),
        Message::TransferMany(message) => {
            for token in message.tokens.as_slice() {
                note_denom(
                    found,
                    SentDenom {
                        chain,
                        channel: &message.channel,
                        denom: &token.denom,
                    },
                )?;
            }
            Ok(())
        }
        _ => Ok(()),
    }
}

// Notes a denomination, unless it is noted.
fn note_denom<'e>(found: &mut Vec<SentDenom<'e>>, sent: SentDenom<'e>) -> Result<(), Refusal> {
    for other in found.as_slice() {
        if other.chain == sent.chain
            && *other.channel == *sent.channel
            && *other.denom == *sent.denom
        {
            return Ok(());
        }
    }
    found.push(sent)?;
    Ok(())
}
