//! What stands in the working block: ends of channels, and what accounts hold.

ghost use Rattle.std.specs.Prelude.{◌≡◌, true, IfOk, option_copied, IsOkUnless};
ghost use Rattle.std.specs.List.{list_all};
ghost use Rattle.ibc_ids.specs.Names.{is_denom};
ghost use Rattle.ibc_ids.specs.Paths.{account_text};
ghost use Rattle.ibc_ids.specs.declared.refusal.Refusal.TheVariants.{NoMemory};
ghost use Rattle.ibc_machine.specs.ics20.Bank.{balance, supply};
ghost use Rattle.ibc_records.specs.RecordsModel.{core_of};
ghost use Rattle.ibc_ledger.specs.SentPackets.{end_at};
ghost use Rattle.ibc_ledger.specs.LedgerReads.{core_on, all_balances_on, IsNamedEnd, chain_tracked_over};

use crate::Ledger;
use ibc_ids::{Account, ChannelId, ConnectionId, Denom, PortId, Refusal};
use ibc_records::{Channel, Records};
use ibc_wire::ChannelEnd;

impl Ledger {
    /// The end of a channel in the working block, or none (ICS 4, "Channel paths"). `NoMemory` where a growth is refused.
    pub fn channel(&self, port: &PortId, channel: &ChannelId) -> Result<Option<&Channel>, Refusal>
        ensures ok { IfOk result (λ end. option_copied end ≡ end_at self.now.ledger port.now channel.now) }
        ensures err { IsOkUnless result NoMemory }
    {
        self.node.records.channel(port, channel)
    }

    /// The end of a channel in the working block that an end of another chain names as its peer, with its name, or none.
    /// `NoMemory` where a growth is refused.
    pub fn named_channel<'a>(
        &'a self,
        end: &'a ChannelEnd,
    ) -> Result<Option<(&'a ChannelId, &'a Channel)>, Refusal>
        ensures ok { IfOk result (λ found. IsNamedEnd (core_on self.now.ledger) end.now found) }
        ensures err { IsOkUnless result NoMemory }
    {
        named_in(&self.node.records, end)
    }

    /// The number of the chain that the client under a connection tracks, or none where there is no such client.
    pub fn tracked_over(&self, connection: &ConnectionId) -> Option<u8>
        ensures { result ≡ chain_tracked_over (core_on self.now.ledger) connection.now }
    {
        tracked_in(&self.node.records, connection)
    }

    /// What an account holds of a denomination in the working block.
    pub fn balance(&self, account: &Account, denom: &Denom) -> u128
        ensures { result ≡ balance (all_balances_on self.now.ledger) (account_text account.now) denom.now }
    {
        self.node
            .applications
            .transfers
            .bank()
            .balance(account, denom)
    }

    /// All that the accounts hold of a denomination in the working block.
    pub fn supply(&self, denom: &Denom) -> u128
        ensures { result ≡ supply (all_balances_on self.now.ledger) denom.now }
    {
        self.node.applications.transfers.bank().supply(denom)
    }

    /// Each denomination of which an account holds something has the form of one (ICS 20).
    pub fn lemma_holds_denominations(&self)
        ensures { list_all (λ entry. is_denom entry.0.1) (all_balances_on self.now.ledger) ≡ true }
    {
        self.node
            .applications
            .transfers
            .bank()
            .lemma_holds_denominations();
    }
}

// The end of a channel of records that an end of another chain names as its peer, with its name, or none: no channel has an
// empty name.
fn named_in<'a>(
    records: &'a Records,
    end: &'a ChannelEnd,
) -> Result<Option<(&'a ChannelId, &'a Channel)>, Refusal>
    ensures ok { IfOk result (λ found. IsNamedEnd (core_of records.now) end.now found) }
    ensures err { IsOkUnless result NoMemory }
{
    records.lemma_names_have_form();
    let Some(name) = &end.peer_channel else {
        return Ok(None);
    };
    match records.channel(&end.peer_port, name)? {
        Some(channel) => Ok(Some((name, channel))),
        None => Ok(None),
    }
}

// The number of the chain that the client under a connection of records tracks, or none where there is no such client. Where
// there is no such connection, the client of the empty name is asked, which no chain has.
fn tracked_in(records: &Records, connection: &ConnectionId) -> Option<u8>
    ensures { result ≡ chain_tracked_over (core_of records.now) connection.now }
{
    records.lemma_names_have_form();
    let Some(end) = records.connection(connection) else {
        return None;
    };
    match records.client(&end.client) {
        Some(client) => Some(client.state().chain),
        None => None,
    }
}
