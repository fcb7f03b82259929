//! What the step `open` does in turn, and what the chains have given it.

ghost use Rattle.std.specs.Prelude.{◌≡◌, IfOk, IsOkUnless};
ghost use Rattle.ibc_script_cli.specs.Opening.{new_handshake, new_party, with_effect, origin_of, own_of, turn_draft, with_effect_at};

mod drafts;

use drafts::DraftWriter;
use ibc_ids::{ChannelId, ClientId, ConnectionId};
use ibc_machine::Effect;
use ibc_script::{Application, Draft, EventKind, Fault, ProofSource};
use ibc_wire::MessageKind;
use std::alloc::Global;

/// One of the two chains.
#[derive(Clone, Copy, Debug, PartialEq, Eq, Drop)]
pub enum HandshakeSide {
    /// The chain that begins the handshakes.
    First,
    /// The chain that answers.
    Second,
}

/// The turns of an `open`, each a chain and what it does: clients of each other, then a connection (ICS 3, "Opening
/// Handshake"), then a channel over it (ICS 4, "Opening handshake"). The peer is told of each height whose records a
/// message proves.
pub const PLAN: [(HandshakeSide, EventKind); 20] = [
    (
        HandshakeSide::First,
        EventKind::Message(MessageKind::CreateClient),
    ),
    (
        HandshakeSide::Second,
        EventKind::Message(MessageKind::CreateClient),
    ),
    (
        HandshakeSide::First,
        EventKind::Message(MessageKind::ConnOpenInit),
    ),
    (HandshakeSide::First, EventKind::Block),
    (
        HandshakeSide::Second,
        EventKind::Message(MessageKind::UpdateClient),
    ),
    (
        HandshakeSide::Second,
        EventKind::Message(MessageKind::ConnOpenTry),
    ),
    (HandshakeSide::Second, EventKind::Block),
    (
        HandshakeSide::First,
        EventKind::Message(MessageKind::UpdateClient),
    ),
    (
        HandshakeSide::First,
        EventKind::Message(MessageKind::ConnOpenAck),
    ),
    (
        HandshakeSide::First,
        EventKind::Message(MessageKind::ChanOpenInit),
    ),
    (HandshakeSide::First, EventKind::Block),
    (
        HandshakeSide::Second,
        EventKind::Message(MessageKind::UpdateClient),
    ),
    (
        HandshakeSide::Second,
        EventKind::Message(MessageKind::ConnOpenConfirm),
    ),
    (
        HandshakeSide::Second,
        EventKind::Message(MessageKind::ChanOpenTry),
    ),
    (HandshakeSide::Second, EventKind::Block),
    (
        HandshakeSide::First,
        EventKind::Message(MessageKind::UpdateClient),
    ),
    (
        HandshakeSide::First,
        EventKind::Message(MessageKind::ChanOpenAck),
    ),
    (HandshakeSide::First, EventKind::Block),
    (
        HandshakeSide::Second,
        EventKind::Message(MessageKind::UpdateClient),
    ),
    (
        HandshakeSide::Second,
        EventKind::Message(MessageKind::ChanOpenConfirm),
    ),
];

/// A chain of an `open`, with the names that it has given, and the height that it has committed last, 0 before the
/// first.
#[derive(Drop)]
pub struct HandshakeParty {
    pub chain: u8,
    pub client: Option<ClientId>,
    pub connection: Option<ConnectionId>,
    pub channel: Option<ChannelId>,
    pub height: u64,
}

impl HandshakeParty {
    fn new(chain: u8) -> HandshakeParty
        ensures { result ≡ new_party chain }
    {
        HandshakeParty {
            chain,
            client: None,
            connection: None,
            channel: None,
            height: 0,
        }
    }

    fn learn(&mut self, effect: Effect)
        ensures { self.new ≡ with_effect effect self.old }
    {
        match effect {
            Effect::Client(client) => self.client = Some(client),
            Effect::Connection(connection) => self.connection = Some(connection),
            Effect::Channel(channel) => self.channel = Some(channel),
            Effect::Block(height, _) => self.height = height,
            Effect::None | Effect::Sent(_) | Effect::Ack(_) => {}
        }
    }

    /// The height that it has committed last.
    pub fn origin(&self) -> ProofSource
        ensures { result ≡ origin_of self.now }
    {
        ProofSource {
            chain: self.chain,
            height: self.height,
        }
    }
}

/// An `open` under way.
#[derive(Drop)]
pub struct Handshake {
    pub application: Application,
    pub first: HandshakeParty,
    pub second: HandshakeParty,
}

impl Handshake {
    /// An `open` of which nothing is done yet.
    pub fn new(application: Application, first: u8, second: u8) -> Handshake
        ensures { result ≡ new_handshake application first second }
    {
        Handshake {
            application,
            first: HandshakeParty::new(first),
            second: HandshakeParty::new(second),
        }
    }

    /// The chain of a side.
    pub fn chain(&self, side: HandshakeSide) -> u8
        ensures { result ≡ (own_of side self.now).chain }
    {
        match side {
            HandshakeSide::First => self.first.chain,
            HandshakeSide::Second => self.second.chain,
        }
    }

    /// The message of a turn, `None` where the turn sends none, or names something that no chain has given.
    /// Fault: `NoMemory`.
    pub fn draft(
        &self,
        alloc: Global,
        side: HandshakeSide,
        kind: MessageKind,
    ) -> Result<Option<Draft>, Fault>
        ensures made { IfOk result (λ made. made ≡ turn_draft side kind self.now) }
        ensures memory { IsOkUnless result Fault.NoMemory }
    {
        let (own, peer) = match side {
            HandshakeSide::First => (&self.first, &self.second),
            HandshakeSide::Second => (&self.second, &self.first),
        };
        let drafting = DraftWriter {
            alloc,
            application: self.application,
            own,
            peer,
        };
        drafting.draft(kind)
    }

    /// A chain has given this.
    pub fn learn(&mut self, side: HandshakeSide, effect: Effect)
        ensures { self.new ≡ with_effect_at side effect self.old }
    {
        match side {
            HandshakeSide::First => self.first.learn(effect),
            HandshakeSide::Second => self.second.learn(effect),
        }
    }
}
