//! The forms of texts in a script.

/// What a text of a script may have to be.
#[derive(Clone, Copy)]
pub enum TextForm {
    /// An amount in decimal digits.
    Amount,
    /// An application that the step `open` opens a channel for.
    Application,
    /// A denomination without hops.
    BaseDenom,
    /// A chain's name.
    Chain,
    /// A channel's identifier.
    Channel,
    /// A client's identifier.
    Client,
    /// A connection's identifier.
    Connection,
    /// A denomination.
    Denom,
    /// A kind of steps.
    Kind,
    /// A transfer's memo.
    Memo,
    /// The order of a channel.
    Order,
    /// The path of a record that a chain proves.
    Path,
    /// A port's identifier.
    Port,
    /// The receiver of a transfer.
    Receiver,
    /// A user's name.
    User,
    /// A channel's version.
    Version,
}
