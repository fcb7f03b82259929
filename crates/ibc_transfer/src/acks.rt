//! What packets of tokens are acknowledged with.

ghost use Rattle.std.specs.Prelude.{◌≡◌, IfOk};
ghost use Rattle.ibc_ids.specs.Texts.{same_text};
ghost use Rattle.ibc_machine.specs.ics20.TokenData.{success};
ghost use Rattle.ibc_transfer.specs.TokenArrival.{failure_ack};

use ibc_ids::Bytes;
use std::alloc::{AllocError, Global};

const SUCCESS: &str = r#"{"result":"AQ=="}"#;

const BAD_DATA: &str = r#"{"error":"bad data"}"#;

const BAD_RECEIVER: &str = r#"{"error":"bad receiver"}"#;

const OVER_LIMIT: &str = r#"{"error":"over limit"}"#;

/// Why the tokens of a packet aren't taken, as its acknowledgement says.
#[derive(Clone, Copy, Drop, Debug, PartialEq, Eq)]
pub(crate) enum Failure {
    /// The payload isn't the one spelling of data of the channel's version.
    BadData,
    /// The receiver has no user's name.
    BadReceiver,
    /// A denomination would be too long, an escrow account holds too little, or more than 2^128 - 1 of a denomination
    /// would be held and in flight.
    OverLimit,
}

impl Failure {
    /// The acknowledgement that says so.
    pub(crate) fn ack(self, alloc: Global) -> Result<Bytes, AllocError>
        ensures { IfOk result (λ ack. ack ≡ failure_ack self) }
    {
        let text = match self {
            Failure::BadData => BAD_DATA,
            Failure::BadReceiver => BAD_RECEIVER,
            Failure::OverLimit => OVER_LIMIT,
        };
        Bytes::copy_of(alloc, text.as_bytes())
    }
}

/// The acknowledgement of a packet whose tokens were taken.
pub(crate) fn success(alloc: Global) -> Result<Bytes, AllocError>
    ensures { IfOk result (λ ack. ack ≡ success) }
{
    Bytes::copy_of(alloc, SUCCESS.as_bytes())
}

/// Whether an acknowledgement says that the tokens were taken.
pub(crate) fn is_success(ack: &[u8]) -> bool
    ensures { result ≡ same_text ack.now success }
{
    ack == SUCCESS.as_bytes()
}
