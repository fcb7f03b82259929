//! The kinds of names (ICS 24, "Identifiers"; ICS 20 for denominations). Lengths are in bytes.

ghost use Rattle.std.specs.Prelude.{◌≡◌, ◌≤◌, ℕ, Bool, List, IsTrue, length};
ghost use Rattle.std.specs.Str.{IsAscii};
ghost use Rattle.ibc_ids.specs.Names.{is_port, is_client, is_connection, is_channel, is_user, is_receiver, is_memo, is_version, is_denom};

use crate::{Name, forms};

/// A kind of names: which texts have its form.
pub trait NameKind {
    ghost form: { List ℕ → Bool };

    /// Whether a text has the form.
    fn has_form(text: &[u8]) -> bool
        ensures { result ≡ form text.now };

    /// Texts of the form are ASCII, and of 256 bytes at most.
    fn lemma_short_and_ascii()
        ensures { (text : List ℕ) → IsTrue (form text) → IsAscii text × (length text ≤ 256) };
}

/// A port's identifier: 2 to 128 letters, digits and `.` `_` `+` `-` `#` `[` `]` `<` `>` (ICS 24).
pub type PortId = Name<PortKind>;

/// A client's identifier: 9 to 64 of the same characters (ICS 24).
pub type ClientId = Name<ClientKind>;

/// A connection's identifier: 10 to 64 of the same characters (ICS 24).
pub type ConnectionId = Name<ConnectionKind>;

/// A channel's identifier: 8 to 64 of the same characters (ICS 24).
pub type ChannelId = Name<ChannelKind>;

/// A user's name: 1 to 32 letters and digits.
pub type UserName = Name<UserKind>;

/// The receiver that a transfer names: 1 to 64 bytes from 0x20 to 0x7e without `"` and `\` (ICS 20).
pub type Receiver = Name<ReceiverKind>;

/// A transfer's memo: 0 to 256 of the same characters (ICS 20).
pub type Memo = Name<MemoKind>;

/// A channel's version: 1 to 32 letters, digits, `-` and `.` (ICS 4).
pub type Version = Name<VersionKind>;

/// A denomination: hops `port/channel/`, and a base of 1 to 64 letters and digits; 256 bytes at most (ICS 20).
pub type Denom = Name<DenomKind>;

/// The kind of port identifiers.
#[derive(Clone, Copy, Debug)]
pub struct PortKind;

/// The kind of client identifiers.
#[derive(Clone, Copy, Debug)]
pub struct ClientKind;

/// The kind of connection identifiers.
#[derive(Clone, Copy, Debug)]
pub struct ConnectionKind;

/// The kind of channel identifiers.
#[derive(Clone, Copy, Debug)]
pub struct ChannelKind;

/// The kind of user names.
#[derive(Clone, Copy, Debug)]
pub struct UserKind;

/// The kind of receivers.
#[derive(Clone, Copy, Debug)]
pub struct ReceiverKind;

/// The kind of memos.
#[derive(Clone, Copy, Debug)]
pub struct MemoKind;

/// The kind of versions.
#[derive(Clone, Copy, Debug)]
pub struct VersionKind;

/// The kind of denominations.
#[derive(Clone, Copy, Debug)]
pub struct DenomKind;

impl NameKind for PortKind {
    ghost form = { is_port };

    fn has_form(text: &[u8]) -> bool {
        forms::is_identifier(text, 2, 128)
    }

    #[tactic(auto, using(crate::proofs::Ascii::ports))]
    fn lemma_short_and_ascii() {}
}

impl NameKind for ClientKind {
    ghost form = { is_client };

    fn has_form(text: &[u8]) -> bool {
        forms::is_identifier(text, 9, 64)
    }

    #[tactic(auto, using(crate::proofs::Ascii::clients))]
    fn lemma_short_and_ascii() {}
}

impl NameKind for ConnectionKind {
    ghost form = { is_connection };

    fn has_form(text: &[u8]) -> bool {
        forms::is_identifier(text, 10, 64)
    }

    #[tactic(auto, using(crate::proofs::Ascii::connections))]
    fn lemma_short_and_ascii() {}
}

impl NameKind for ChannelKind {
    ghost form = { is_channel };

    fn has_form(text: &[u8]) -> bool {
        forms::is_identifier(text, 8, 64)
    }

    #[tactic(auto, using(crate::proofs::Ascii::channels))]
    fn lemma_short_and_ascii() {}
}

impl NameKind for UserKind {
    ghost form = { is_user };

    fn has_form(text: &[u8]) -> bool {
        forms::is_word(text, 1, 32)
    }

    #[tactic(auto, using(crate::proofs::Ascii::users))]
    fn lemma_short_and_ascii() {}
}

impl NameKind for ReceiverKind {
    ghost form = { is_receiver };

    fn has_form(text: &[u8]) -> bool {
        forms::is_plain(text, 1, 64)
    }

    #[tactic(auto, using(crate::proofs::Ascii::receivers))]
    fn lemma_short_and_ascii() {}
}

impl NameKind for MemoKind {
    ghost form = { is_memo };

    fn has_form(text: &[u8]) -> bool {
        forms::is_plain(text, 0, 256)
    }

    #[tactic(auto, using(crate::proofs::Ascii::memos))]
    fn lemma_short_and_ascii() {}
}

impl NameKind for VersionKind {
    ghost form = { is_version };

    fn has_form(text: &[u8]) -> bool {
        forms::is_version(text)
    }

    #[tactic(auto, using(crate::proofs::Ascii::versions))]
    fn lemma_short_and_ascii() {}
}

impl NameKind for DenomKind {
    ghost form = { is_denom };

    fn has_form(text: &[u8]) -> bool {
        forms::is_denom(text)
    }

    #[tactic(auto, using(crate::proofs::Ascii::denominations))]
    fn lemma_short_and_ascii() {}
}
