//! What the objects of a script have to have.

ghost use Rattle.std.specs.Prelude.{◌≡◌};
ghost use Rattle.ibc_lab.specs.Tables.{chain_owes, kind_owed, script_owes, step_owes};

use crate::{Leaf, Member, StepKind, TextForm};

/// What a member of an object has to be.
#[derive(Clone, Copy)]
pub enum MemberForm {
    /// A value without parts.
    Leaf(Leaf),
    /// Two different chains.
    Pair,
    /// A packet: the chain, the port and the channel that it was sent from, and its sequence there.
    Packet,
    /// The tokens of a transfer, whose denominations rise.
    Tokens,
    /// The balances that a chain begins with.
    Balances,
}

/// A member that an object has to have, or may have.
#[derive(Clone, Copy)]
pub struct Owed {
    pub member: Member,
    pub form: MemberForm,
    pub optional: bool,
}

const AMOUNT: Owed = Owed {
    member: Member::Amount,
    form: MemberForm::Leaf(Leaf::Text(TextForm::Amount)),
    optional: false,
};

const APP: Owed = Owed {
    member: Member::App,
    form: MemberForm::Leaf(Leaf::Text(TextForm::Application)),
    optional: false,
};

const BALANCES: Owed = Owed {
    member: Member::Balances,
    form: MemberForm::Balances,
    optional: false,
};

const BLOCK_TIME: Owed = Owed {
    member: Member::Time,
    form: MemberForm::Leaf(Leaf::Number(0, u64::MAX)),
    optional: true,
};

const CAPACITY: Owed = Owed {
    member: Member::Capacity,
    form: MemberForm::Leaf(Leaf::Number(1, 1_000_000)),
    optional: false,
};

const CHAINS: Owed = Owed {
    member: Member::Chains,
    form: MemberForm::Leaf(Leaf::List(2, 8)),
    optional: false,
};

const CHANNEL: Owed = Owed {
    member: Member::Channel,
    form: MemberForm::Leaf(Leaf::Text(TextForm::Channel)),
    optional: false,
};

const CLIENT: Owed = Owed {
    member: Member::Client,
    form: MemberForm::Leaf(Leaf::Text(TextForm::Client)),
    optional: false,
};

const CONNECTION: Owed = Owed {
    member: Member::Connection,
    form: MemberForm::Leaf(Leaf::Text(TextForm::Connection)),
    optional: false,
};

const DATA: Owed = Owed {
    member: Member::Data,
    form: MemberForm::Leaf(Leaf::Base64),
    optional: false,
};

const DENOM: Owed = Owed {
    member: Member::Denom,
    form: MemberForm::Leaf(Leaf::Text(TextForm::Denom)),
    optional: false,
};

const DO: Owed = Owed {
    member: Member::Do,
    form: MemberForm::Leaf(Leaf::Text(TextForm::Kind)),
    optional: false,
};

const FROM: Owed = Owed {
    member: Member::From,
    form: MemberForm::Leaf(Leaf::Known),
    optional: false,
};

const HEIGHT: Owed = Owed {
    member: Member::Height,
    form: MemberForm::Leaf(Leaf::Number(0, u64::MAX)),
    optional: false,
};

const MEMO: Owed = Owed {
    member: Member::Memo,
    form: MemberForm::Leaf(Leaf::Text(TextForm::Memo)),
    optional: true,
};

const NAME: Owed = Owed {
    member: Member::Name,
    form: MemberForm::Leaf(Leaf::Text(TextForm::Chain)),
    optional: false,
};

const OF: Owed = Owed {
    member: Member::Of,
    form: MemberForm::Leaf(Leaf::Known),
    optional: false,
};

const ON: Owed = Owed {
    member: Member::On,
    form: MemberForm::Leaf(Leaf::Known),
    optional: false,
};

const ORDER: Owed = Owed {
    member: Member::Order,
    form: MemberForm::Leaf(Leaf::Text(TextForm::Order)),
    optional: false,
};

const PACKET: Owed = Owed {
    member: Member::Packet,
    form: MemberForm::Packet,
    optional: false,
};

const PAIR: Owed = Owed {
    member: Member::Chains,
    form: MemberForm::Pair,
    optional: false,
};

const PATH: Owed = Owed {
    member: Member::Path,
    form: MemberForm::Leaf(Leaf::Text(TextForm::Path)),
    optional: false,
};

const PEER_CHANNEL: Owed = Owed {
    member: Member::PeerChannel,
    form: MemberForm::Leaf(Leaf::Text(TextForm::Channel)),
    optional: false,
};

const PEER_CLIENT: Owed = Owed {
    member: Member::PeerClient,
    form: MemberForm::Leaf(Leaf::Text(TextForm::Client)),
    optional: false,
};

const PEER_CONNECTION: Owed = Owed {
    member: Member::PeerConnection,
    form: MemberForm::Leaf(Leaf::Text(TextForm::Connection)),
    optional: false,
};

const PEER_PORT: Owed = Owed {
    member: Member::PeerPort,
    form: MemberForm::Leaf(Leaf::Text(TextForm::Port)),
    optional: false,
};

const PORT: Owed = Owed {
    member: Member::Port,
    form: MemberForm::Leaf(Leaf::Text(TextForm::Port)),
    optional: false,
};

const RECEIVER: Owed = Owed {
    member: Member::Receiver,
    form: MemberForm::Leaf(Leaf::Text(TextForm::Receiver)),
    optional: false,
};

const STEPS: Owed = Owed {
    member: Member::Steps,
    form: MemberForm::Leaf(Leaf::List(0, 10_000)),
    optional: false,
};

const TIME: Owed = Owed {
    member: Member::Time,
    form: MemberForm::Leaf(Leaf::Number(0, u64::MAX)),
    optional: false,
};

const TIMEOUT_HEIGHT: Owed = Owed {
    member: Member::TimeoutHeight,
    form: MemberForm::Leaf(Leaf::Number(0, u64::MAX)),
    optional: false,
};

const TIMEOUT_TIME: Owed = Owed {
    member: Member::TimeoutTime,
    form: MemberForm::Leaf(Leaf::Number(0, u64::MAX)),
    optional: false,
};

const TOKENS: Owed = Owed {
    member: Member::Tokens,
    form: MemberForm::Tokens,
    optional: false,
};

const TURNS: Owed = Owed {
    member: Member::Turns,
    form: MemberForm::Leaf(Leaf::Number(1, 1_000)),
    optional: false,
};

const USER: Owed = Owed {
    member: Member::User,
    form: MemberForm::Leaf(Leaf::Text(TextForm::User)),
    optional: false,
};

const VERSION: Owed = Owed {
    member: Member::Version,
    form: MemberForm::Leaf(Leaf::Text(TextForm::Version)),
    optional: false,
};

const WINDOW: Owed = Owed {
    member: Member::Window,
    form: MemberForm::Leaf(Leaf::Number(1, 4_096)),
    optional: true,
};

const CHAN_OPEN_TRY: &[Owed] = &[
    DO,
    ON,
    PORT,
    ORDER,
    CONNECTION,
    PEER_PORT,
    PEER_CHANNEL,
    VERSION,
    FROM,
    HEIGHT,
];

const TRANSFER: &[Owed] = &[
    DO,
    ON,
    CHANNEL,
    USER,
    DENOM,
    AMOUNT,
    RECEIVER,
    MEMO,
    TIMEOUT_HEIGHT,
    TIMEOUT_TIME,
];

const TRANSFER_MANY: &[Owed] = &[
    DO,
    ON,
    CHANNEL,
    USER,
    TOKENS,
    RECEIVER,
    MEMO,
    TIMEOUT_HEIGHT,
    TIMEOUT_TIME,
];

/// The member `do` of a step.
pub fn kind_owed() -> Owed
    ensures { result ≡ kind_owed }
{
    DO
}

/// What a script has.
pub fn script_owes() -> &'static [Owed]
    ensures { result.now ≡ script_owes }
{
    &[CAPACITY, WINDOW, CHAINS, STEPS]
}

/// What a chain of a script has.
pub fn chain_owes() -> &'static [Owed]
    ensures { result.now ≡ chain_owes }
{
    &[NAME, TIME, BALANCES]
}

/// What a step of a kind has.
pub fn step_owes(kind: StepKind) -> &'static [Owed]
    ensures { result.now ≡ step_owes kind }
{
    match kind {
        StepKind::AckPacket => &[DO, ON, PACKET, FROM, HEIGHT],
        StepKind::Block => &[DO, ON, BLOCK_TIME],
        StepKind::ChanCloseConfirm => &[DO, ON, PORT, CHANNEL, FROM, HEIGHT],
        StepKind::ChanCloseInit => &[DO, ON, PORT, CHANNEL],
        StepKind::ChanOpenAck => &[DO, ON, PORT, CHANNEL, PEER_CHANNEL, FROM, HEIGHT],
        StepKind::ChanOpenConfirm => &[DO, ON, PORT, CHANNEL, FROM, HEIGHT],
        StepKind::ChanOpenInit => &[DO, ON, PORT, ORDER, CONNECTION, PEER_PORT, VERSION],
        StepKind::ChanOpenTry => CHAN_OPEN_TRY,
        StepKind::ConnOpenAck => &[DO, ON, CONNECTION, PEER_CONNECTION, FROM, HEIGHT],
        StepKind::ConnOpenConfirm => &[DO, ON, CONNECTION, FROM, HEIGHT],
        StepKind::ConnOpenInit => &[DO, ON, CLIENT, PEER_CLIENT],
        StepKind::ConnOpenTry => &[DO, ON, CLIENT, PEER_CLIENT, PEER_CONNECTION, FROM, HEIGHT],
        StepKind::CreateClient => &[DO, ON, OF],
        StepKind::Open => &[DO, PAIR, APP],
        StepKind::Prove => &[DO, ON, HEIGHT, PATH],
        StepKind::RecvPacket => &[DO, ON, PACKET, HEIGHT],
        StepKind::Relay => &[DO, PAIR, TURNS],
        StepKind::Root => &[DO, ON, HEIGHT],
        StepKind::SendNote => &[DO, ON, CHANNEL, DATA, TIMEOUT_HEIGHT, TIMEOUT_TIME],
        StepKind::Timeout => &[DO, ON, PACKET, FROM, HEIGHT],
        StepKind::TimeoutOnClose => &[DO, ON, PACKET, FROM, HEIGHT],
        StepKind::Totals => &[DO, ON, CHANNEL, DENOM],
        StepKind::Transfer => TRANSFER,
        StepKind::TransferMany => TRANSFER_MANY,
        StepKind::UpdateClient => &[DO, ON, CLIENT, HEIGHT],
    }
}
