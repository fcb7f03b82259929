//! What becomes of a message.

ghost use Rattle.std.specs.Prelude.{◌≡◌, None, Err, IfOk, IsOk, IsErr};
ghost use Rattle.ibc_ids.specs.declared.refusal.Refusal.TheVariants.{NoMemory};
ghost use Rattle.ibc_machine.specs.declared.reply.Effect.TheVariants as effect_of;
ghost use Rattle.ibc_ledger.specs.MessageReplies.{result_effects, caller_reply, history_reply};

use ibc_ids::{Bytes, Refusal, Root};
use ibc_machine::{Effect, Reading, Reply};
use std::alloc::AllocError;

/// An effect, once for the caller and once for the history.
#[derive(Drop)]
pub struct EffectTwice {
    pub told: Effect,
    pub kept: Effect,
}

/// What became of a message, and what was read for it.
#[derive(Drop)]
pub struct Outcome {
    pub result: Result<EffectTwice, Refusal>,
    pub reading: Option<Reading>,
}

impl Outcome {
    /// The outcome of a message that reads nothing.
    pub fn unread(given: Result<EffectTwice, Refusal>) -> Outcome
        ensures { result ≡ record { result = given; reading = None } }
    {
        Outcome {
            result: given,
            reading: None,
        }
    }
}

impl EffectTwice {
    /// The effects of a call that tells nothing.
    pub fn of_nothing(given: Result<(), Refusal>) -> Result<EffectTwice, Refusal>
        ensures { result ≡ result_effects (λ _. effect_of.None) given }
    {
        match given {
            Ok(()) => Ok(EffectTwice {
                told: Effect::None,
                kept: Effect::None,
            }),
            Err(refusal) => Err(refusal),
        }
    }

    /// The effects of a call that sent a packet under this sequence.
    pub fn of_sent(sent: Result<u64, Refusal>) -> Result<EffectTwice, Refusal>
        ensures { result ≡ result_effects effect_of.Sent sent }
    {
        match sent {
            Ok(sequence) => Ok(EffectTwice {
                told: Effect::Sent(sequence),
                kept: Effect::Sent(sequence),
            }),
            Err(refusal) => Err(refusal),
        }
    }

    /// The effects of a call that ended a block, by its height and its root.
    pub fn of_block(ended: Result<(u64, Root), Refusal>) -> Result<EffectTwice, Refusal>
        ensures { result ≡ result_effects (λ block. effect_of.Block block.0 block.1) ended }
    {
        match ended {
            Ok((height, root)) => Ok(EffectTwice {
                told: Effect::Block(height, root),
                kept: Effect::Block(height, root),
            }),
            Err(refusal) => Err(refusal),
        }
    }

    /// The effects of a call that wrote an acknowledgement, of which it gives a copy too.
    pub fn of_ack(written: Result<(Bytes, Bytes), Refusal>) -> Result<EffectTwice, Refusal>
        requires { IfOk written (λ acks. acks.1 ≡ acks.0) }
        ensures { result ≡ result_effects (λ acks. effect_of.Ack acks.0) written }
    {
        match written {
            Ok((ack, kept)) => Ok(EffectTwice {
                told: Effect::Ack(ack),
                kept: Effect::Ack(kept),
            }),
            Err(refusal) => Err(refusal),
        }
    }
}

/// The replies that tell a result, once for the caller and once for the history. Error: memory ran out.
pub fn replies(given: Result<EffectTwice, Refusal>) -> Result<(Reply, Reply), AllocError>
    ensures ok { IfOk result (λ both. (both.0 ≡ caller_reply given) × (both.1 ≡ history_reply given)) }
    ensures plenty { IsOk result → given ≡ Err NoMemory → ⊥ }
    ensures err { IsErr result → given ≡ Err NoMemory }
{
    match given {
        Ok(effects) => Ok((Reply::Ok(effects.told), Reply::Ok(effects.kept))),
        Err(Refusal::NoMemory) => Err(AllocError),
        Err(refusal) => Ok((Reply::No(refusal), Reply::No(refusal))),
    }
}
