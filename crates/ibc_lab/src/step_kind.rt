//! The kinds of steps.

ghost use Rattle.std.specs.Prelude.{◌≡◌};
ghost use Rattle.ibc_lab.specs.Words.{kind_name, first_named, kind_of};

/// A kind of steps: what the member `do` of a step names.
#[derive(Clone, Copy)]
pub enum StepKind {
    AckPacket,
    Block,
    ChanCloseConfirm,
    ChanCloseInit,
    ChanOpenAck,
    ChanOpenConfirm,
    ChanOpenInit,
    ChanOpenTry,
    ConnOpenAck,
    ConnOpenConfirm,
    ConnOpenInit,
    ConnOpenTry,
    CreateClient,
    Open,
    Prove,
    RecvPacket,
    Relay,
    Root,
    SendNote,
    Timeout,
    TimeoutOnClose,
    Totals,
    Transfer,
    TransferMany,
    UpdateClient,
}

/// All kinds of steps.
pub const ALL_KINDS: [StepKind; 25] = [
    StepKind::CreateClient,
    StepKind::UpdateClient,
    StepKind::ConnOpenInit,
    StepKind::ConnOpenTry,
    StepKind::ConnOpenAck,
    StepKind::ConnOpenConfirm,
    StepKind::ChanOpenInit,
    StepKind::ChanOpenTry,
    StepKind::ChanOpenAck,
    StepKind::ChanOpenConfirm,
    StepKind::ChanCloseInit,
    StepKind::ChanCloseConfirm,
    StepKind::Transfer,
    StepKind::TransferMany,
    StepKind::SendNote,
    StepKind::RecvPacket,
    StepKind::AckPacket,
    StepKind::Timeout,
    StepKind::TimeoutOnClose,
    StepKind::Block,
    StepKind::Open,
    StepKind::Relay,
    StepKind::Root,
    StepKind::Totals,
    StepKind::Prove,
];

impl StepKind {
    /// The kind that a text names.
    pub fn of(name: &str) -> Option<StepKind>
        ensures { result ≡ kind_of name.now }
    {
        first_named(name, &ALL_KINDS)
    }

    /// What a script calls the kind.
    pub fn name(self) -> &'static str
        ensures { result.now ≡ kind_name self }
    {
        match self {
            StepKind::AckPacket => "AckPacket",
            StepKind::Block => "Block",
            StepKind::ChanCloseConfirm => "ChanCloseConfirm",
            StepKind::ChanCloseInit => "ChanCloseInit",
            StepKind::ChanOpenAck => "ChanOpenAck",
            StepKind::ChanOpenConfirm => "ChanOpenConfirm",
            StepKind::ChanOpenInit => "ChanOpenInit",
            StepKind::ChanOpenTry => "ChanOpenTry",
            StepKind::ConnOpenAck => "ConnOpenAck",
            StepKind::ConnOpenConfirm => "ConnOpenConfirm",
            StepKind::ConnOpenInit => "ConnOpenInit",
            StepKind::ConnOpenTry => "ConnOpenTry",
            StepKind::CreateClient => "CreateClient",
            StepKind::Open => "open",
            StepKind::Prove => "prove",
            StepKind::RecvPacket => "RecvPacket",
            StepKind::Relay => "relay",
            StepKind::Root => "root",
            StepKind::SendNote => "SendNote",
            StepKind::Timeout => "Timeout",
            StepKind::TimeoutOnClose => "TimeoutOnClose",
            StepKind::Totals => "totals",
            StepKind::Transfer => "Transfer",
            StepKind::TransferMany => "TransferMany",
            StepKind::UpdateClient => "UpdateClient",
        }
    }
}

// The first of the kinds that has this name.
fn first_named(name: &str, kinds: &[StepKind]) -> Option<StepKind>
    ensures { result ≡ first_named name.now kinds.now }
{
    for kind in kinds {
        if kind.name() == name {
            return Some(*kind);
        }
    }
    None
}
