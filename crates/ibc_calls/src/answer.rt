//! What a call answers, and its number.

ghost use Rattle.std.specs.Prelude.{◌≡◌};
ghost use Rattle.ibc_calls.specs.CallAnswers.{answer_number, answer_to};

use ibc_ids::Refusal;
use ibc_machine::Reply;

/// Why a call was refused.
#[derive(Clone, Copy, Debug, PartialEq, Eq, Drop)]
pub enum Refused {
    /// The core refuses it: 1 to 31.
    Core(Refusal),
    /// The handle holds nothing: 101.
    Empty,
    /// The handle holds something already: 102.
    Full,
    /// The handle holds something of another kind: 103.
    OtherKind,
    /// The place for the bytes is too short: 104.
    TooShort,
    /// There is nothing at the index: 105.
    NothingThere,
    /// The ledger is of another world: 106.
    OtherWorld,
    /// The bytes spell no message: 107.
    NoMessage,
    /// The bytes spell no data of tokens: 108.
    NoData,
    /// Another answer is due than the stored one: 109.
    OtherAnswer,
}

impl From<Refusal> for Refused {
    ghost use Rattle.ibc_calls.specs.declared.answer.Refused.TheVariants.{Core};

    ghost from_gives = { λ r e. e ≡ Core r };

    fn from(refusal: Refusal) -> Refused {
        Refused::Core(refusal)
    }
}

/// The number of an answer: 0 where nothing was refused, else that of the refusal.
pub fn number(answer: Result<(), Refused>) -> u32
    ensures { result ≡ answer_number answer }
{
    match answer {
        Ok(()) => 0,
        Err(Refused::Core(refusal)) => u32::from(refusal.number()),
        Err(Refused::Empty) => 101,
        Err(Refused::Full) => 102,
        Err(Refused::OtherKind) => 103,
        Err(Refused::TooShort) => 104,
        Err(Refused::NothingThere) => 105,
        Err(Refused::OtherWorld) => 106,
        Err(Refused::NoMessage) => 107,
        Err(Refused::NoData) => 108,
        Err(Refused::OtherAnswer) => 109,
    }
}

/// The answer of a reply.
pub(crate) fn answer_to(reply: Reply) -> Result<(), Refused>
    ensures { result ≡ answer_to reply }
{
    match reply {
        Reply::Ok(_) => Ok(()),
        Reply::No(refusal) => Err(Refused::Core(refusal)),
    }
}
