//! How an answer is spelled: the reply, and what was read where the event was an update of a client that looked.

ghost use Rattle.std.specs.Prelude.{◌≡◌, ◌∷◌, []};
ghost use Rattle.ibc_wire.specs.Fields.{one_byte, be64, str, root32, name as a_name};
ghost use Rattle.ibc_wire.specs.Fronts.{Gives, Writes, coded_at_front};
ghost use Rattle.ibc_entry_codec.specs.Refusals.{refusal_of};
ghost use Rattle.ibc_entry_codec.specs.Answers.{effect_fields, reply_fields, row_number, sight_fields, reading_fields, answer_fields};
ghost use Rattle.ibc_entry_codec.specs.AnswerFronts.{block_at_front, effect_at_front, reply_at_front, row_of, sight_at_front, reading_at_front, answer_at_front};

use crate::numbers::refusal_of;
use ibc_ids::{Bytes, Name, NameKind, Refusal, Root};
use ibc_machine::{Effect, Reading, Reply};
use ibc_wire::Wire;
use ibc_wire::fields::{
    read_n8, read_name, read_root, read_str, read_u8, write_n8, write_name, write_root, write_str,
    write_u8,
};
use std::alloc::Global;

/// What a ledger answered to an event, with what was read for it. A replay needs both: an update of a client is answered by what was
/// read, and that may have been gone a moment later.
#[derive(Debug, PartialEq, Eq, Drop)]
pub struct EntryAnswer {
    pub reply: Reply,
    pub reading: Option<Reading>,
}

impl Wire for EntryAnswer {
    ghost fields = { answer_fields };

    ghost front = { answer_at_front };

    #[tactic(auto, unfolding(crate::specs::AnswerFronts::answer_at_front))]
    fn read(alloc: Global, bytes: &[u8]) -> Result<(EntryAnswer, &[u8]), Refusal> {
        let (reply, rest) = read_reply(alloc, bytes)?;
        match read_reading(rest) {
            Ok((reading, rest)) => Ok((EntryAnswer { reply, reading }, rest)),
            Err(refusal) => {
                drop(reply);
                Err(refusal)
            }
        }
    }

    fn write(&self, out: &mut Vec<u8>) -> Result<(), Refusal> {
        write_reply(out, &self.reply)?;
        write_reading(out, &self.reading)
    }

    #[tactic(auto, using(crate::proofs::AnswerReaders::answer_reader))]
    fn lemma_reads_what_is_spelled() {}
}

// ---- reading

// The reply at the front of the bytes, and what stands behind it.
#[tactic(auto, unfolding(crate::specs::AnswerFronts::reply_at_front))]
fn read_reply(alloc: Global, bytes: &[u8]) -> Result<(Reply, &[u8]), Refusal>
    ensures { Gives (λ x. (x.0, x.1.now)) result (reply_at_front bytes.now) }
{
    match bytes {
        [1, rest @ ..] => {
            let (effect, rest) = read_effect(alloc, rest)?;
            Ok((Reply::Ok(effect), rest))
        }
        [2, rest @ ..] => {
            let (refusal, rest) = read_refusal(rest)?;
            Ok((Reply::No(refusal), rest))
        }
        _ => Err(Refusal::BadMessage),
    }
}

// The refusal whose number stands at the front.
fn read_refusal(bytes: &[u8]) -> Result<(Refusal, &[u8]), Refusal>
    ensures { Gives (λ x. (x.0, x.1.now)) result (coded_at_front refusal_of bytes.now) }
{
    let (number, rest) = read_u8(bytes)?;
    match refusal_of(number) {
        Some(refusal) => Ok((refusal, rest)),
        None => Err(Refusal::BadMessage),
    }
}

// What an accepted event gave.
#[tactic(auto, unfolding(crate::specs::AnswerFronts::effect_at_front))]
fn read_effect(alloc: Global, bytes: &[u8]) -> Result<(Effect, &[u8]), Refusal>
    ensures { Gives (λ x. (x.0, x.1.now)) result (effect_at_front bytes.now) }
{
    match bytes {
        [1, rest @ ..] => Ok((Effect::None, rest)),
        [2, rest @ ..] => {
            let (id, rest) = read_name(alloc, rest)?;
            Ok((Effect::Client(id), rest))
        }
        [3, rest @ ..] => {
            let (id, rest) = read_name(alloc, rest)?;
            Ok((Effect::Connection(id), rest))
        }
        [4, rest @ ..] => {
            let (id, rest) = read_name(alloc, rest)?;
            Ok((Effect::Channel(id), rest))
        }
        [5, rest @ ..] => {
            let (sequence, rest) = read_n8(rest)?;
            Ok((Effect::Sent(sequence), rest))
        }
        [6, rest @ ..] => {
            let (ack, rest) = read_str(alloc, rest, u16::MAX)?;
            Ok((Effect::Ack(ack), rest))
        }
        [7, rest @ ..] => {
            // no `?` here: the borrow checker has no rule for one beside a root
            match read_block(rest) {
                Ok(((height, root), rest)) => Ok((Effect::Block(height, root), rest)),
                Err(refusal) => Err(refusal),
            }
        }
        _ => Err(Refusal::BadMessage),
    }
}

// A height and its root.
fn read_block(bytes: &[u8]) -> Result<((u64, Root), &[u8]), Refusal>
    ensures { Gives (λ x. (x.0, x.1.now)) result (block_at_front bytes.now) }
{
    let (height, rest) = read_n8(bytes)?;
    match read_root(rest) {
        Ok((root, rest)) => Ok(((height, root), rest)),
        Err(refusal) => Err(refusal),
    }
}

// What was read, if anything was.
#[tactic(auto, unfolding(crate::specs::AnswerFronts::reading_at_front))]
fn read_reading(bytes: &[u8]) -> Result<(Option<Reading>, &[u8]), Refusal>
    ensures { Gives (λ x. (x.0, x.1.now)) result (reading_at_front bytes.now) }
{
    match bytes {
        [0, rest @ ..] => Ok((None, rest)),
        [1, rest @ ..] => {
            let (seen, rest) = read_sight(rest)?;
            Ok((Some(seen), rest))
        }
        _ => Err(Refusal::BadMessage),
    }
}

// What was read.
fn read_sight(bytes: &[u8]) -> Result<(Reading, &[u8]), Refusal>
    ensures { Gives (λ x. (x.0, x.1.now)) result (sight_at_front bytes.now) }
{
    let (published, rest) = read_n8(bytes)?;
    let (row_was_there, rest) = read_row(rest)?;
    Ok((
        Reading {
            published,
            row_was_there,
        },
        rest,
    ))
}

// Whether a row was looked for, and was there.
fn read_row(bytes: &[u8]) -> Result<(Option<bool>, &[u8]), Refusal>
    ensures { Gives (λ x. (x.0, x.1.now)) result (coded_at_front row_of bytes.now) }
{
    match bytes {
        [0, rest @ ..] => Ok((None, rest)),
        [1, rest @ ..] => Ok((Some(false), rest)),
        [2, rest @ ..] => Ok((Some(true), rest)),
        _ => Err(Refusal::BadMessage),
    }
}

// ---- writing

// Writes a reply behind the bytes.
pub(crate) fn write_reply(out: &mut Vec<u8>, reply: &Reply) -> Result<(), Refusal>
    ensures { Writes (reply_fields reply.now) out.old.items result out.new.items }
{
    match reply {
        Reply::Ok(effect) => write_accepted(out, effect),
        Reply::No(refusal) => write_pair(out, 2, refusal.number()),
    }
}

// Writes what an accepted event gave, behind a 1.
fn write_accepted(out: &mut Vec<u8>, effect: &Effect) -> Result<(), Refusal>
    ensures { Writes (one_byte 1 ∷ effect_fields effect.now) out.old.items result out.new.items }
{
    write_u8(out, 1)?;
    write_effect(out, effect)
}

// Writes what an accepted event gave.
fn write_effect(out: &mut Vec<u8>, effect: &Effect) -> Result<(), Refusal>
    ensures { Writes (effect_fields effect.now) out.old.items result out.new.items }
{
    match effect {
        Effect::None => write_u8(out, 1),
        Effect::Client(id) => write_named(out, 2, id),
        Effect::Connection(id) => write_named(out, 3, id),
        Effect::Channel(id) => write_named(out, 4, id),
        Effect::Sent(sequence) => write_sent(out, *sequence),
        Effect::Ack(ack) => write_ack(out, ack),
        Effect::Block(height, root) => write_block(out, *height, root),
    }
}

// Writes two bytes.
fn write_pair(out: &mut Vec<u8>, first: u8, second: u8) -> Result<(), Refusal>
    ensures { Writes (one_byte first ∷ one_byte second ∷ []) out.old.items result out.new.items }
{
    write_u8(out, first)?;
    write_u8(out, second)
}

// Writes a name behind a tag.
fn write_named<K: NameKind>(out: &mut Vec<u8>, tag: u8, name: &Name<K>) -> Result<(), Refusal>
    ensures { Writes (one_byte tag ∷ a_name K.form name.now ∷ []) out.old.items result out.new.items }
{
    write_u8(out, tag)?;
    write_name(out, name)
}

// Writes a sequence behind its tag.
fn write_sent(out: &mut Vec<u8>, sequence: u64) -> Result<(), Refusal>
    ensures { Writes (one_byte 5 ∷ be64 sequence ∷ []) out.old.items result out.new.items }
{
    write_u8(out, 5)?;
    write_n8(out, sequence)
}

// Writes an acknowledgement behind its tag.
fn write_ack(out: &mut Vec<u8>, ack: &Bytes) -> Result<(), Refusal>
    ensures { Writes (one_byte 6 ∷ str ack.now ∷ []) out.old.items result out.new.items }
{
    write_u8(out, 6)?;
    write_str(out, ack, u16::MAX)
}

// Writes a height and its root behind their tag.
fn write_block(out: &mut Vec<u8>, height: u64, root: &Root) -> Result<(), Refusal>
    ensures { Writes (one_byte 7 ∷ be64 height ∷ root32 root.now ∷ []) out.old.items result out.new.items }
{
    write_u8(out, 7)?;
    write_n8(out, height)?;
    write_root(out, root)
}

// Writes what was read, if anything was.
pub(crate) fn write_reading(out: &mut Vec<u8>, reading: &Option<Reading>) -> Result<(), Refusal>
    ensures { Writes (reading_fields reading.now) out.old.items result out.new.items }
{
    match reading {
        None => write_u8(out, 0),
        Some(seen) => write_sight(out, seen),
    }
}

// Writes what was read, behind a 1.
fn write_sight(out: &mut Vec<u8>, seen: &Reading) -> Result<(), Refusal>
    ensures { Writes (one_byte 1 ∷ sight_fields seen.now) out.old.items result out.new.items }
{
    write_u8(out, 1)?;
    write_n8(out, seen.published)?;
    write_u8(out, row_number(seen.row_was_there))
}

// The number of what was seen of a row.
fn row_number(row_was_there: Option<bool>) -> u8
    ensures { result ≡ row_number row_was_there }
{
    match row_was_there {
        None => 0,
        Some(false) => 1,
        Some(true) => 2,
    }
}
