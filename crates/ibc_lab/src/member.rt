//! The members of the objects of a script.

ghost use Rattle.std.specs.Prelude.{◌≡◌};
ghost use Rattle.ibc_lab.specs.Words.{member_name};

/// A member of an object of a script.
#[derive(Clone, Copy)]
pub enum Member {
    Amount,
    App,
    Balances,
    Capacity,
    Chains,
    Channel,
    Client,
    Connection,
    Data,
    Denom,
    Do,
    From,
    Height,
    Memo,
    Name,
    Of,
    On,
    Order,
    Packet,
    Path,
    PeerChannel,
    PeerClient,
    PeerConnection,
    PeerPort,
    Port,
    Receiver,
    Steps,
    Time,
    TimeoutHeight,
    TimeoutTime,
    Tokens,
    Turns,
    User,
    Version,
    Window,
}

impl Member {
    /// What a script calls the member.
    pub fn name(self) -> &'static str
        ensures { result.now ≡ member_name self }
    {
        match self {
            Member::Amount => "amount",
            Member::App => "app",
            Member::Balances => "balances",
            Member::Capacity => "capacity",
            Member::Chains => "chains",
            Member::Channel => "channel",
            Member::Client => "client",
            Member::Connection => "connection",
            Member::Data => "data",
            Member::Denom => "denom",
            Member::Do => "do",
            Member::From => "from",
            Member::Height => "height",
            Member::Memo => "memo",
            Member::Name => "name",
            Member::Of => "of",
            Member::On => "on",
            Member::Order => "order",
            Member::Packet => "packet",
            Member::Path => "path",
            Member::PeerChannel => "peer_channel",
            Member::PeerClient => "peer_client",
            Member::PeerConnection => "peer_connection",
            Member::PeerPort => "peer_port",
            Member::Port => "port",
            Member::Receiver => "receiver",
            Member::Steps => "steps",
            Member::Time => "time",
            Member::TimeoutHeight => "timeout_height",
            Member::TimeoutTime => "timeout_time",
            Member::Tokens => "tokens",
            Member::Turns => "turns",
            Member::User => "user",
            Member::Version => "version",
            Member::Window => "window",
        }
    }
}
