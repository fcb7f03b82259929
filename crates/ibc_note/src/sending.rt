//! Sending notes.

ghost use Rattle.std.specs.Prelude.{◌≡◌, ◌-◌, ◌^◌, ◌<◌, IfOk, IsOkUnless};
ghost use Rattle.ibc_ids.specs.declared.refusal.Refusal.TheVariants.{NoMemory};
ghost use Rattle.ibc_machine.specs.chain.Notes as notes;
ghost use Rattle.ibc_records.specs.OwnEnds.{IsEndAt};
ghost use Rattle.ibc_note.specs.NoteHandlers.{HandlesSendNote, JudgesSendNote};

use ibc_ids::{PortId, Refusal};
use ibc_records::{
    Channel, Commitment, Records, check_number, check_timeouts, has_size, sending_end,
};
use ibc_wire::SendNote;
use std::alloc::Global;

/// Sends a note over a channel of port `note`, and answers the sequence of its packet (ICS 4, "sendPacket"). Refused, by
/// the first check that fails: `UnknownChannel`; `WrongState` where the end isn't in `Open`; `TooLarge` where the note
/// hasn't 1 to 1,024 bytes; `NoTimeout` where it has neither timeout; `TimeoutPassed` where one is reached at the latest
/// height that the end's client knows of the peer; `NumberFull` where the next sequence is 2^64 - 1. `NoMemory` where a
/// growth is refused. A refusal leaves the records.
pub fn send_note(alloc: Global, records: &mut Records, message: &SendNote) -> Result<u64, Refusal>
    ensures { HandlesSendNote message.now records.old result records.new }
{
    let port = note_port(alloc)?;
    judge_note(records, &port, message)?;
    let commitment = Commitment {
        payload: message.payload.clone()?,
        timeout_height: message.timeout_height,
        timeout_time: message.timeout_time,
    };
    records.send(&port, &message.channel, commitment)
}

// The port of notes.
fn note_port(alloc: Global) -> Result<PortId, Refusal>
    ensures ok { IfOk result (λ port. port ≡ notes.note_port) }
    ensures err { IsOkUnless result NoMemory }
{
    PortId::parse(alloc, "note")
}

// The checks, in their order, and the end that sends.
fn judge_note<'a>(
    records: &'a Records,
    port: &PortId,
    message: &SendNote,
) -> Result<&'a Channel, Refusal>
    requires { port.now ≡ notes.note_port }
    ensures judged { JudgesSendNote port.now message.now records.now result }
    ensures there { IfOk result (λ mine. IsEndAt records.now port.now message.now.channel mine.now) }
    ensures free { IfOk result (λ mine. mine.now.next_send < 2 ^ 64 - 1) }
{
    let mine = sending_end(records, port, &message.channel)?;
    if !has_size(message.payload.as_slice()) {
        return Err(Refusal::TooLarge);
    }
    check_timeouts(records, mine, message.timeout_height, message.timeout_time)?;
    check_number(mine.next_send())?;
    Ok(mine)
}
