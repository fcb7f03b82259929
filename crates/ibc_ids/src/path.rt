//! Which key has a path (ICS 24, "Path-space").

ghost use Rattle.std.specs.Prelude.{◌≡◌, ◌≢◌, ◌↔◌, ◌⊎◌, ◌&&◌, ◌==◌, nat_lt, codes, [], ◌∷◌, length, slice_index, IsTrue, IfOk, IfErr, IsErrOf, MatchOption};
ghost use Rattle.std.specs.List.{slice_split};
ghost use Rattle.ibc_ids.specs.Names.{is_slash, is_port, is_channel, HasNoSlash, IsParted};
ghost use Rattle.ibc_ids.specs.Paths.{path, is_key, channel_parts, IsNameRefusal, IsKeyOf, IsReadIfPath, sequence_texts, AreNamesOf, IsSequenceOf};
ghost use Rattle.ibc_ids.specs.declared.key.Key.{Key};
ghost use Rattle.ibc_ids.specs.declared.refusal.Refusal.TheVariants.{BadName, NoMemory};

use crate::{ChannelId, ChannelKind, Key, Name, NameKind, PortId, Refusal};
use std::alloc::Global;

impl Key {
    /// The key that has this path (ICS 24, "Path-space"). Refused: `BadName` exactly where no key has it; `NoMemory`.
    pub fn parse(alloc: Global, text: &str) -> Result<Key, Refusal>
        ensures ok { IfOk result (λ key. (path key ≡ text.now) × IsTrue (is_key key)) }
        ensures bad { IsErrOf result BadName ↔ ((key : Key) → IsTrue (is_key key) → path key ≢ text.now) }
        ensures memory { IsReadIfPath result text.now }
        ensures errors { IfErr result (λ e. (e ≡ BadName) ⊎ (e ≡ NoMemory)) }
    {
        let Some((kind, rest)) = split_at_slash(text) else {
            return counter(text);
        };
        let Some((second, rest)) = split_at_slash(rest) else {
            return connection(alloc, kind, rest);
        };
        let Some((third, rest)) = split_at_slash(rest) else {
            return client_state(alloc, kind, second, rest);
        };
        if second != "ports" {
            return Err(Refusal::BadName);
        }
        channel_record(alloc, kind, third, rest)
    }
}

/// What stands before the first slash, and what stands behind it.
fn split_at_slash(text: &str) -> Option<(&str, &str)>
    ensures { MatchOption result (HasNoSlash text.now) (λ p. IsParted text.now p.0.now p.1.now) }
{
    text.split_once('/')
}

/// The key of a number that counts up.
fn counter(name: &str) -> Result<Key, Refusal>
    ensures { IsKeyOf (name.now ∷ []) result }
{
    match name {
        "nextClientSequence" => Ok(Key::NextClientSequence),
        "nextConnectionSequence" => Ok(Key::NextConnectionSequence),
        "nextChannelSequence" => Ok(Key::NextChannelSequence),
        _ => Err(Refusal::BadName),
    }
}

/// The key of a connection, from the parts of its path.
fn connection(alloc: Global, kind: &str, id: &str) -> Result<Key, Refusal>
    ensures { IsKeyOf (kind.now ∷ id.now ∷ []) result }
{
    if kind != "connections" {
        return Err(Refusal::BadName);
    }
    Ok(Key::Connection(Name::parse(alloc, id)?))
}

/// The key of a client's state, from the parts of its path.
fn client_state(alloc: Global, kind: &str, id: &str, field: &str) -> Result<Key, Refusal>
    ensures { IsKeyOf (kind.now ∷ id.now ∷ field.now ∷ []) result }
{
    if kind != "clients" || field != "clientState" {
        return Err(Refusal::BadName);
    }
    Ok(Key::ClientState(Name::parse(alloc, id)?))
}

/// The key of a channel's record, from the kind, the port and what stands behind the port.
fn channel_record(alloc: Global, kind: &str, port: &str, rest: &str) -> Result<Key, Refusal>
    ensures { IsKeyOf (kind.now ∷ codes "ports" ∷ port.now ∷ slice_split is_slash rest.now) result }
{
    let Some(("channels", rest)) = split_at_slash(rest) else {
        return Err(Refusal::BadName);
    };
    let Some((channel, rest)) = split_at_slash(rest) else {
        return record_of_channel(alloc, kind, port, rest);
    };
    let Some(("sequences", sequence)) = split_at_slash(rest) else {
        return Err(Refusal::BadName);
    };
    record_at_sequence(alloc, kind, port, channel, sequence)
}

/// The key of a channel's one record of a kind.
fn record_of_channel(alloc: Global, kind: &str, port: &str, channel: &str) -> Result<Key, Refusal>
    ensures { IsKeyOf (kind.now ∷ channel_parts port.now channel.now []) result }
{
    match kind {
        "channelEnds" => {
            let (port, channel) = names_in_path(alloc, port, channel)?;
            Ok(Key::ChannelEnd(port, channel))
        }
        "nextSequenceSend" => {
            let (port, channel) = names_in_path(alloc, port, channel)?;
            Ok(Key::NextSequenceSend(port, channel))
        }
        "nextSequenceRecv" => {
            let (port, channel) = names_in_path(alloc, port, channel)?;
            Ok(Key::NextSequenceRecv(port, channel))
        }
        "nextSequenceAck" => {
            let (port, channel) = names_in_path(alloc, port, channel)?;
            Ok(Key::NextSequenceAck(port, channel))
        }
        _ => Err(Refusal::BadName),
    }
}

/// The key of a channel's record of a kind at a sequence.
fn record_at_sequence(
    alloc: Global,
    kind: &str,
    port: &str,
    channel: &str,
    sequence: &str,
) -> Result<Key, Refusal>
    ensures { IsKeyOf (sequence_texts kind.now port.now channel.now sequence.now) result }
{
    let Some(sequence) = sequence_of(sequence) else {
        return Err(Refusal::BadName);
    };
    match kind {
        "commitments" => {
            let (port, channel) = names_in_path(alloc, port, channel)?;
            Ok(Key::Commitment(port, channel, sequence))
        }
        "receipts" => {
            let (port, channel) = names_in_path(alloc, port, channel)?;
            Ok(Key::Receipt(port, channel, sequence))
        }
        "acks" => {
            let (port, channel) = names_in_path(alloc, port, channel)?;
            Ok(Key::Acknowledgement(port, channel, sequence))
        }
        _ => Err(Refusal::BadName),
    }
}

/// The port and the channel of a path. Both texts are tested before memory is taken, so `NoMemory` never stands for a
/// bad one. Refused: `BadName` exactly where one hasn't its form; `NoMemory`.
fn names_in_path(alloc: Global, port: &str, channel: &str) -> Result<(PortId, ChannelId), Refusal>
    ensures ok { IfOk result (λ names. AreNamesOf port.now channel.now names.0 names.1) }
    ensures refused { IfErr result (IsNameRefusal (is_port port.now && is_channel channel.now)) }
{
    if !ChannelKind::has_form(channel.as_bytes()) {
        return Err(Refusal::BadName);
    }
    let port = Name::parse(alloc, port)?;
    let channel = Name::parse(alloc, channel)?;
    Ok((port, channel))
}

/// The sequence that the text writes in decimal digits without leading zeros.
fn sequence_of(text: &str) -> Option<u64>
    ensures { IsSequenceOf text.now result }
{
    if text.starts_with('+') {
        return None;
    }
    if has_leading_zero(text.as_bytes()) {
        return None;
    }
    text.parse().ok()
}

fn has_leading_zero(digits: &[u8]) -> bool
    ensures { result ≡ (nat_lt 1 (length digits.now) && slice_index digits.now 0 == 48) }
{
    digits.len() > 1 && digits[0] == b'0'
}
