//! The names and values that random scripts use.

/// The users of each chain.
pub const USERS: [&str; 2] = ["alice", "bob"];

/// The denominations that each chain begins with, in byte order.
pub const TOKENS: [&str; 3] = ["atom", "ion", "photon"];

/// Receivers: users, one who holds nothing, and one that is none.
pub const RECEIVERS: [&str; 8] = [
    "alice",
    "bob",
    "alice",
    "bob",
    "alice",
    "bob",
    "carol",
    "nobody at all",
];

/// Amounts that users have in the beginning.
pub const AMOUNTS: [&str; 8] = ["1", "2", "3", "5", "7", "10", "11", "20"];

/// Amounts of what came from another chain.
pub const SMALL_AMOUNTS: [&str; 4] = ["1", "1", "2", "3"];

/// Amounts that nobody has, and one that is none.
pub const ODD_AMOUNTS: [&str; 3] = ["0", "900000", "340282366920938463463374607431768211455"];

/// The data of notes, in base64.
pub const NOTES: [&str; 5] = ["bjE=", "bjI=", "bjM=", "AA==", "bm90ZQ=="];

/// What channels are opened for.
pub const APPLICATIONS: [&str; 3] = ["transfer", "transfer2", "note"];

/// The ports of applications, and one that has none.
pub const PORTS: [&str; 3] = ["transfer", "note", "bank"];

/// Names of channels that most chains have.
pub const CHANNELS: [&str; 4] = ["channel-0", "channel-1", "channel-2", "channel-3"];

/// The orders of channels.
pub const ORDERS: [&str; 2] = ["ORDERED", "UNORDERED"];

/// The versions of applications, and one that has none.
pub const VERSIONS: [&str; 4] = ["ics20-1", "ics20-own-2", "note-1", "none-1"];

/// The messages of a connection's handshake.
pub const CONNECTION_KINDS: [&str; 4] = [
    "ConnOpenInit",
    "ConnOpenTry",
    "ConnOpenAck",
    "ConnOpenConfirm",
];

/// The messages of a channel's handshake, and the one that closes the peer.
pub const CHANNEL_KINDS: [&str; 5] = [
    "ChanOpenInit",
    "ChanOpenTry",
    "ChanOpenAck",
    "ChanOpenConfirm",
    "ChanCloseConfirm",
];

/// The messages that move packets.
pub const PACKET_KINDS: [&str; 4] = ["RecvPacket", "AckPacket", "Timeout", "TimeoutOnClose"];

/// The name of a chain.
pub fn chain_name(chain: u8) -> &'static str {
    match chain {
        0 => "a",
        1 => "b",
        2 => "c",
        3 => "d",
        4 => "e",
        5 => "f",
        6 => "g",
        _ => "h",
    }
}
