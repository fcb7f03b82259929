//! What is told where a law is broken.

ghost use Rattle.std.specs.Prelude.{◌≡◌, IfOk};
ghost use Rattle.ibc_law_checks.specs.MovedLanes.{IsToldAs};

use crate::{BrokenLaw, Finding, LawChecks, PacketLaw};
use ibc_ids::ChannelId;
use ibc_wire::{Message, Packet};
use std::alloc::{AllocError, Global};

// What is told of a packet that breaks a law. Error: no memory.
fn of_packet(
    alloc: Global,
    law: BrokenLaw,
    chain: u8,
    packet: &Packet,
) -> Result<Finding, AllocError>
    ensures { IfOk result (λ finding. finding.law ≡ law) }
{
    let port = packet.source_port.as_str();
    let channel = packet.source_channel.as_str();
    let sequence = packet.sequence;
    let about = format!(in alloc; "packet {port}/{channel} {sequence}")?;
    Ok(Finding { law, chain, about })
}

/// What is told of a packet whose law is broken, if one is. Error: no memory.
pub(super) fn if_broken(
    alloc: Global,
    broken: Option<PacketLaw>,
    chain: u8,
    packet: &Packet,
) -> Result<Option<Finding>, AllocError>
    ensures { IfOk result (IsToldAs broken) }
{
    match broken {
        Some(law) => {
            let law = BrokenLaw::OfPackets(law);
            Ok(Some(of_packet(alloc, law, chain, packet)?))
        }
        None => Ok(None),
    }
}

// What is told of a channel over which a law is broken. Error: no memory.
fn of_channel(
    alloc: Global,
    law: BrokenLaw,
    chain: u8,
    channel: &ChannelId,
) -> Result<Finding, AllocError>
    ensures { IfOk result (λ finding. finding.law ≡ law) }
{
    let about = String::from_str(alloc, channel.as_str())?;
    Ok(Finding { law, chain, about })
}

/// What is told of a message that breaks a law: its packet, or the channel over which it sends. Error: no memory.
pub(super) fn of_message(
    alloc: Global,
    law: BrokenLaw,
    chain: u8,
    message: &Message,
) -> Result<Finding, AllocError>
    ensures { IfOk result (λ finding. finding.law ≡ law) }
{
    match message {
        Message::RecvPacket(message) => of_packet(alloc, law, chain, &message.packet),
        Message::AckPacket(message) => of_packet(alloc, law, chain, &message.packet),
        Message::Timeout(message) => of_packet(alloc, law, chain, &message.packet),
        Message::TimeoutOnClose(message) => of_packet(alloc, law, chain, &message.packet),
        Message::Transfer(message) => of_channel(alloc, law, chain, &message.channel),
        Message::TransferMany(message) => of_channel(alloc, law, chain, &message.channel),
        Message::SendNote(message) => of_channel(alloc, law, chain, &message.channel),
        _ => Ok(Finding {
            law,
            chain,
            about: String::new(alloc),
        }),
    }
}

impl LawChecks {
    /// What is told of a place that isn't balanced. Error: no memory.
    pub(super) fn of_place(&self, index: usize) -> Result<Finding, AllocError>
        ensures { IfOk result (λ finding. finding.law ≡ BrokenLaw.Conserved) }
    {
        let law = BrokenLaw::Conserved;
        match self.places.get(index) {
            Some(place) => {
                let (channel, denom) = (place.channel.as_str(), place.denom.as_str());
                let about = format!(in self.alloc; "{denom} at transfer/{channel}")?;
                let chain = place.chain;
                Ok(Finding { law, chain, about })
            }
            None => Ok(Finding {
                law,
                chain: 0,
                about: String::new(self.alloc),
            }),
        }
    }

    /// What is told of a supply that has changed. Error: no memory.
    pub(super) fn of_supply(&self, index: usize) -> Result<Finding, AllocError>
        ensures { IfOk result (λ finding. finding.law ≡ BrokenLaw.SupplyStays) }
    {
        let law = BrokenLaw::SupplyStays;
        match self.supplies.get(index) {
            Some(supply) => {
                let about = String::from_str(self.alloc, supply.denom.as_str())?;
                let chain = supply.chain;
                Ok(Finding { law, chain, about })
            }
            None => Ok(Finding {
                law,
                chain: 0,
                about: String::new(self.alloc),
            }),
        }
    }

    /// What is told of a refund that is refused since an escrow holds too little. Error: no memory.
    pub(super) fn of_refund(&self, chain: u8) -> Result<Finding, AllocError>
        ensures { IfOk result (λ finding. finding.law ≡ BrokenLaw.NeverPoor) }
    {
        Ok(Finding {
            law: BrokenLaw::NeverPoor,
            chain,
            about: String::from_str(self.alloc, "a refund")?,
        })
    }
}
