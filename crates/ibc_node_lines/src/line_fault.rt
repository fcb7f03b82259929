//! Why a line asks for nothing.

ghost use Rattle.std.specs.Prelude.{◌≡◌};
ghost use Rattle.ibc_node_lines.specs.OtherLines.{fault_text};

use std::fmt;

/// Why a line asks for nothing.
#[derive(Clone, Copy, Debug, PartialEq, Eq)]
pub enum LineFault {
    NotText,
    NotJson,
    NoObject,
    UnknownMember,
    NoRequest,
    NoStep,
    NoChain,
    UnknownChain,
    NoTime,
    NoHex,
    NoMessage,
    NoLogPlace,
    NoHeight,
    NoPath,
    NoChannel,
    NoDenom,
    NoPlace,
    UnknownQuery,
    NoMemory,
}

impl LineFault {
    // What is wrong.
    pub(crate) fn text(&self) -> &'static str
        ensures { result.now ≡ fault_text self.now }
    {
        match self {
            LineFault::NotText => "the line is no UTF-8",
            LineFault::NotJson => "the line is no JSON",
            LineFault::NoObject => "the line is no object",
            LineFault::UnknownMember => "the object has a member that no such request has",
            LineFault::NoRequest => "a request has a member do, message, block or query",
            LineFault::NoStep => "this is no step of a script with these chains",
            LineFault::NoChain => "chain is no number from 0 to 255",
            LineFault::UnknownChain => "there is no such chain",
            LineFault::NoTime => "block is no number below 2^64",
            LineFault::NoHex => "message is no text in hex",
            LineFault::NoMessage => "the bytes spell no message",
            LineFault::NoLogPlace => "at is no number from 1 to 4294967295",
            LineFault::NoHeight => "height is no number below 2^64",
            LineFault::NoPath => "path is no path of ICS 24",
            LineFault::NoChannel => "channel is no identifier of a channel",
            LineFault::NoDenom => "denom is no denomination",
            LineFault::NoPlace => "from is no number from 0 to 4294967295",
            LineFault::UnknownQuery => "there is no such query",
            LineFault::NoMemory => "no memory",
        }
    }
}

impl fmt::Display for LineFault {
    fn fmt<W: fmt::Write>(&self, f: &mut fmt::Formatter<W>) -> fmt::Result {
        f.write_str(self.text())
    }
}
