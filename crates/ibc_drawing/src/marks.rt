//! What is drawn of an entry.

use crate::canvas::{Canvas, Ink, MarkWords, ROW};
use crate::packets::PacketKey;
use crate::words::words_of;
use ibc_explain::{ExplainedLine, Explanation, PacketOutcome};
use ibc_machine::{Effect, Event, Reply};
use ibc_wire::Message;
use std::alloc::AllocError;

/// Draws an entry on the lane of its chain; more words are for who asks.
pub fn draw_entry<'e>(
    canvas: &mut Canvas<'e>,
    told: &Explanation<'e>,
    title: &str,
) -> Result<(), AllocError> {
    let on = told.place.chain;
    match (&told.entry.event, &told.entry.reply) {
        (Event::Block { .. }, Reply::Ok(Effect::Block(height, _))) => canvas.tick(on, *height),
        (
            Event::Message {
                message: Message::UpdateClient(message),
                ..
            },
            Reply::Ok(_),
        ) => canvas.update(on, message.header.chain, message.header.height),
        _ => {
            let words = words_of(canvas.alloc, told)?;
            let beside = words.as_str();
            let drawn = draw_with_words(canvas, told, MarkWords { beside, title });
            drop(words);
            drawn?;
            canvas.down(ROW);
            Ok(())
        }
    }
}

/// Draws that nothing was sent by a step of a chain.
pub fn draw_none(
    canvas: &mut Canvas<'_>,
    chain: u8,
    line: &ExplainedLine<'_>,
    title: &str,
) -> Result<(), AllocError> {
    let kind = line.line.text.split(' ').nth(1).unwrap_or("");
    let words = format!(in canvas.alloc; "{kind}: nothing is sent")?;
    let beside = words.as_str();
    let drawn = canvas.mark(chain, Ink::Soft, MarkWords { beside, title });
    drop(words);
    drawn?;
    canvas.down(ROW);
    Ok(())
}

// Draws what has words beside it.
fn draw_with_words<'e>(
    canvas: &mut Canvas<'e>,
    told: &Explanation<'e>,
    words: MarkWords<'_>,
) -> Result<(), AllocError> {
    let on = told.place.chain;
    let key = PacketKey::of(told);
    match (&told.entry.reply, key) {
        (Reply::No(_), key) => {
            canvas.counts.refused = canvas.counts.refused.saturating_add(1);
            if let Some(key) = key {
                draw_missed(canvas, told, key)?;
            }
            canvas.mark(on, Ink::Refused, words)
        }
        (Reply::Ok(_), Some(key)) => {
            draw_packet(canvas, told, key)?;
            canvas.mark(on, Ink::Packet(key.colour()), words)
        }
        (Reply::Ok(_), None) => canvas.mark(on, Ink::Plain, words),
    }
}

// Where a packet was meant to go that was refused. One that has come before has its arrow.
fn draw_missed<'e>(
    canvas: &mut Canvas<'e>,
    told: &Explanation<'e>,
    key: PacketKey<'e>,
) -> Result<(), AllocError> {
    match canvas.packets.find(key) {
        Some(packet) if !told.is_of_sender() && packet.received.is_none() => {
            canvas.line("missed", key.chain, packet.sent, told.place.chain, None)
        }
        _ => Ok(()),
    }
}

// The line of a packet, of its acknowledgement, or of its timeout.
fn draw_packet<'e>(
    canvas: &mut Canvas<'e>,
    told: &Explanation<'e>,
    key: PacketKey<'e>,
) -> Result<(), AllocError> {
    let on = told.place.chain;
    let colour = key.colour();
    let known = canvas.packets.find(key);
    match told.outcome {
        None => {
            canvas.counts.sent = canvas.counts.sent.saturating_add(1);
            let y = canvas.y;
            canvas.packets.send(key, y)
        }
        Some(PacketOutcome::TimedOut) => {
            canvas.counts.timed_out = canvas.counts.timed_out.saturating_add(1);
            let begun = known.map_or(canvas.y, |packet| packet.sent);
            canvas.bow(on, begun, colour)
        }
        Some(_) if told.is_of_sender() => {
            canvas.counts.settled = canvas.counts.settled.saturating_add(1);
            match known.and_then(|packet| packet.received) {
                Some((there, begun)) => canvas.line("comes", there, begun, on, Some(colour)),
                None => Ok(()),
            }
        }
        Some(_) => {
            canvas.counts.received = canvas.counts.received.saturating_add(1);
            let begun = known.map_or(canvas.y, |packet| packet.sent);
            canvas.line("goes", key.chain, begun, on, Some(colour))?;
            let y = canvas.y;
            canvas.packets.receive(key, on, y);
            Ok(())
        }
    }
}

// Whether an entry is part of what opens a channel: clients, connections, channels.
fn is_opening(told: &Explanation<'_>) -> bool {
    let Event::Message { message, .. } = &told.entry.event else {
        return false;
    };
    told.is_ok()
        && matches!(
            message,
            Message::CreateClient(_)
                | Message::ConnOpenInit(_)
                | Message::ConnOpenTry(_)
                | Message::ConnOpenAck(_)
                | Message::ConnOpenConfirm(_)
                | Message::ChanOpenInit(_)
                | Message::ChanOpenTry(_)
                | Message::ChanOpenAck(_)
                | Message::ChanOpenConfirm(_)
        )
}

// Whether an entry may stand between such.
fn is_between(told: &Explanation<'_>) -> bool {
    let is_update = matches!(
        told.entry.event,
        Event::Block { .. }
            | Event::Message {
                message: Message::UpdateClient(_),
                ..
            }
    );
    told.is_ok() && is_update
}

/// How many entries from a place on open a channel, with what stands between them; none where the first doesn't.
pub fn opening_at(lines: &[ExplainedLine<'_>], at: usize) -> usize {
    let mut count = 0usize;
    let mut sure = 0usize;
    for line in lines.get(at..).unwrap_or(&[]) {
        let Some(told) = &line.told else {
            return sure;
        };
        count = count.saturating_add(1);
        if is_opening(told) {
            sure = count;
        } else if sure == 0 || !is_between(told) {
            return sure;
        }
    }
    sure
}
