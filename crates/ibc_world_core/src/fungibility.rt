//! The totals of a channel, and what they come to.

ghost use Rattle.std.specs.Prelude.{IfOk, IfErr};
ghost use Rattle.ibc_machine.specs.ics23.HashedTexts.{HasNoClash};
ghost use Rattle.ibc_world_core.specs.Totals.{AreBalancedTotals, AreTotalsIn, AreRefusedIn};

use crate::{World, lemma_what_every_world_keeps};
use ibc_ids::{ChannelId, Denom, Refusal};
use ibc_machine::Totals;

/// What `World::totals` answers. Where no two different texts that the chains hashed share a digest, the escrow of the channel
/// holds just its vouchers at the peer and what is under way there and back (ICS 20, fungibility). It reads all balances, to
/// know that no account holds a denomination that is too long.
pub fn balanced_totals(
    world: &World,
    chain: u8,
    channel: &ChannelId,
    denom: &Denom,
) -> Result<Totals, Refusal>
    ensures ok { IfOk result (λ t. AreTotalsIn world.now.ledgers chain channel.now denom.now t) }
    ensures refused { IfErr result (λ e. AreRefusedIn world.now.ledgers chain channel.now denom.now e) }
    ensures balanced { HasNoClash world.now.ledgers → IfOk result (λ t. AreBalancedTotals t) }
{
    lemma_what_every_world_keeps(world);
    world.lemma_holds_denominations();
    world.totals(chain, channel, denom)
}
