//! What is found: which law is broken, where, and by what.

use std::fmt;

/// The laws of the packets that go one way over a channel (ICS 4, "Desired Properties").
#[derive(Clone, Copy, Debug, PartialEq, Eq, Drop)]
pub enum PacketLaw {
    /// What is sent has the next sequence, counted from 1.
    SentInTurn,
    /// What is received was sent, equal in every field.
    ReceivedWasSent,
    /// Each packet is received at most once.
    ReceivedOnce,
    /// What an ordered channel's end received is a beginning of what was sent.
    ReceivedInOrder,
    /// No packet is both received and timed out.
    NotBoth,
    /// What is acknowledged or timed out was sent, equal in every field.
    SettledWasSent,
    /// Each packet is acknowledged or timed out at most once in all.
    SettledOnce,
    /// What is acknowledged was received, equal in every field.
    AcknowledgedReceived,
    /// What an ordered channel's end acknowledged is a beginning of what was sent.
    AcknowledgedInOrder,
}

/// A law that is broken.
#[derive(Clone, Copy, Debug, PartialEq, Eq, Drop)]
pub enum BrokenLaw {
    /// One of the packets of a channel.
    OfPackets(PacketLaw),
    /// The acknowledgement that is taken is the one that was written.
    TakenAsWritten,
    /// Nothing is received at or behind its timeout.
    ReceivedInTime,
    /// No refund is refused since an escrow holds too little.
    NeverPoor,
    /// The escrow of a channel holds just the vouchers and what is under way (ICS 20, "Correctness").
    Conserved,
    /// The supply of a base denomination at home stays what the genesis gave.
    SupplyStays,
    /// What is done at the same time is one run.
    OneRun,
}

/// A law that is broken, on which chain that was seen, and what broke it.
#[derive(Drop)]
pub struct Finding {
    pub law: BrokenLaw,
    pub chain: u8,
    pub about: String,
}

impl PacketLaw {
    /// The law in words.
    pub fn words(self) -> &'static str {
        match self {
            PacketLaw::SentInTurn => "what is sent has the next sequence",
            PacketLaw::ReceivedWasSent => "what is received was sent",
            PacketLaw::ReceivedOnce => "a packet is received once",
            PacketLaw::ReceivedInOrder => "an ordered channel's packets are received in order",
            PacketLaw::NotBoth => "no packet is both received and timed out",
            PacketLaw::SettledWasSent => "what is settled was sent",
            PacketLaw::SettledOnce => "a packet is settled once",
            PacketLaw::AcknowledgedReceived => "what is acknowledged was received",
            PacketLaw::AcknowledgedInOrder => {
                "an ordered channel's packets are acknowledged in order"
            }
        }
    }
}

impl BrokenLaw {
    /// The law in words.
    pub fn words(self) -> &'static str {
        match self {
            BrokenLaw::OfPackets(law) => law.words(),
            BrokenLaw::TakenAsWritten => "an acknowledgement is taken as it was written",
            BrokenLaw::ReceivedInTime => "nothing is received behind its timeout",
            BrokenLaw::NeverPoor => "an escrow has what a refund takes",
            BrokenLaw::Conserved => "an escrow holds just the vouchers and what is under way",
            BrokenLaw::SupplyStays => "a supply at home stays",
            BrokenLaw::OneRun => "what is done at the same time is one run",
        }
    }
}

impl fmt::Display for BrokenLaw {
    fn fmt<W: fmt::Write>(&self, f: &mut fmt::Formatter<W>) -> fmt::Result {
        f.write_str(self.words())
    }
}
