//! Worlds that are sent forged messages before honest ones.

use crate::counts::Counts;
use crate::forgery::{Group, forged, with_byte};
use crate::log::Log;
use crate::mistake::Unmade;
use crate::spelled::SpelledMessage;
use crate::wrong_bytes::{Numbers, WrongBytes};
use ibc_ids::{Account, Bytes, ChannelId, Denom, Key, PortId, Refusal};
use ibc_machine::{Effect, Event, Genesis, Reply, Totals};
use ibc_merkle::Proof;
use ibc_script_cli::{Chains, CommittedBlock, Holdings, Worlds};
use ibc_script_worlds::{ScriptWorld, WorldFactory};
use ibc_wire::{Message, MessageKind, Packet};
use std::alloc::{AllocError, Global};

/// Makes the world of a genesis, and has it sent these groups of forgeries, which stand in the order of the messages that they
/// forge.
#[derive(Drop)]
pub struct ForgedWorlds<'l> {
    pub alloc: Global,
    pub groups: &'l [Group<'l>],
    pub log: &'l Log,
}

/// A world that is sent forged messages: the kinds of the honest messages that it was sent, and the world.
#[derive(Drop)]
pub struct ForgedChains<'l> {
    alloc: Global,
    groups: &'l [Group<'l>],
    log: &'l Log,
    seen: Vec<MessageKind>,
    ledgers: ScriptWorld,
}

impl<'l> Worlds for ForgedWorlds<'l> {
    type Chains = ForgedChains<'l>;

    fn begin(&self, genesis: &Genesis) -> Result<ForgedChains<'l>, Refusal> {
        let ledgers = WorldFactory::new(self.alloc).begin(genesis)?;
        Ok(ForgedChains {
            alloc: self.alloc,
            groups: self.groups,
            log: self.log,
            seen: Vec::new(self.alloc),
            ledgers,
        })
    }

    fn lemma_keeps(&self, _chains: &ForgedChains<'l>) {}
}

// Why a message can't be sent: want of memory, or nothing but that it was spelled so.
fn judge_unread(refusal: Refusal, counts: &mut Counts) -> Result<(), Refusal> {
    if refusal == Refusal::NoMemory {
        return Err(refusal);
    }
    counts.add_unmade();
    Ok(())
}

impl<'l> ForgedChains<'l> {
    // Sends a message, and counts the reply, or that its bytes are no message.
    fn send(
        &mut self,
        chain: u8,
        made: &SpelledMessage,
        counts: &mut Counts,
    ) -> Result<(), Refusal> {
        match made.message(self.alloc) {
            Ok(message) => {
                let reply = self.ledgers.ask(Event::Message { chain, message })?;
                counts.add(&reply);
                drop(reply);
                Ok(())
            }
            Err(refusal) => judge_unread(refusal, counts),
        }
    }

    // Sends a message with the byte of a field at a place changed.
    fn send_with_byte(
        &mut self,
        chain: u8,
        honest: &SpelledMessage,
        field: &str,
        place: usize,
        counts: &mut Counts,
    ) -> Result<(), Unmade> {
        let content = with_byte(self.alloc, honest.content(field)?, place)?;
        let made = honest.with(self.alloc, field, content.as_slice());
        drop(content);
        let made = made?;
        let sent = self.send(chain, &made, counts);
        drop(made);
        Ok(sent?)
    }

    // Sends a message with each byte of a field changed in turn.
    fn send_with_each_byte(
        &mut self,
        chain: u8,
        honest: &SpelledMessage,
        field: &str,
        counts: &mut Counts,
    ) -> Result<(), Unmade> {
        let size = honest.content(field)?.len();
        for place in 0..size {
            self.send_with_byte(chain, honest, field, place, counts)?;
        }
        Ok(())
    }

    // Sends a message with wrong bytes, and counts it where the bytes are the right ones again.
    fn send_spoilt(
        &mut self,
        chain: u8,
        honest: &SpelledMessage,
        numbers: &mut Numbers,
        counts: &mut Counts,
    ) -> Result<(), Refusal> {
        match honest.spoilt(self.alloc, numbers)? {
            Some(made) => {
                let sent = self.send(chain, &made, counts);
                drop(made);
                sent
            }
            None => {
                counts.add_unmade();
                Ok(())
            }
        }
    }

    // Sends so many messages with wrong bytes.
    fn send_wrong(
        &mut self,
        chain: u8,
        honest: &SpelledMessage,
        wrong: WrongBytes,
        counts: &mut Counts,
    ) -> Result<(), Refusal> {
        let mut numbers = Numbers::new(wrong.seed);
        for _ in 0..wrong.count {
            self.send_spoilt(chain, honest, &mut numbers, counts)?;
        }
        Ok(())
    }

    // Sends the message that a line forges by changes of fields.
    fn send_changed(
        &mut self,
        chain: u8,
        honest: &SpelledMessage,
        line: &str,
        counts: &mut Counts,
    ) -> Result<(), Unmade> {
        let made = forged(self.alloc, &self.ledgers, honest, line)?;
        let sent = self.send(chain, &made, counts);
        drop(made);
        Ok(sent?)
    }

    // Sends what a line forges.
    fn send_line(
        &mut self,
        chain: u8,
        honest: &SpelledMessage,
        line: &str,
        counts: &mut Counts,
    ) -> Result<(), Unmade> {
        if let Some(wrong) = line.strip_prefix("wrong bytes ") {
            return Ok(self.send_wrong(chain, honest, WrongBytes::of(wrong)?, counts)?);
        }
        match line.strip_suffix(" each byte") {
            Some(field) => self.send_with_each_byte(chain, honest, field, counts),
            None => self.send_changed(chain, honest, line, counts),
        }
    }

    // Sends what a line forges that has this number; an empty line forges nothing. A mistake in it is kept.
    fn send_numbered(
        &mut self,
        chain: u8,
        honest: &SpelledMessage,
        (number, line): (usize, &[u8]),
        counts: &mut Counts,
    ) -> Result<(), Refusal> {
        if line.is_empty() {
            return Ok(());
        }
        let text = str::from_utf8(line).unwrap_or("?");
        match self.send_line(chain, honest, text, counts) {
            Ok(()) => Ok(()),
            Err(Unmade::Refusal(refusal)) => Err(refusal),
            Err(Unmade::Mistake(mistake)) => {
                self.log.note_wrong(mistake.at(number));
                Ok(())
            }
        }
    }

    // Sends what each line of a group forges, and keeps the answers.
    fn send_group(
        &mut self,
        chain: u8,
        honest: &SpelledMessage,
        group: &Group<'l>,
    ) -> Result<(), Refusal> {
        let mut counts = Counts::new();
        for (index, line) in group.lines.texts.iter().enumerate() {
            let number = group.lines.number.saturating_add(index);
            self.send_numbered(chain, honest, (number, line), &mut counts)?;
        }
        self.log.note_forged(group.title, &counts)
    }

    // Sends the group of forgeries that is next, which forges this message.
    fn send_next(
        &mut self,
        chain: u8,
        message: &Message,
        group: &Group<'l>,
    ) -> Result<(), Refusal> {
        let honest = SpelledMessage::of(self.alloc, message)?;
        let sent = self.send_group(chain, &honest, group);
        drop(honest);
        sent
    }

    // The number of a message of a kind among those of that kind.
    fn number_of(&mut self, kind: MessageKind) -> Result<usize, AllocError> {
        self.seen.push(kind)?;
        Ok(self.seen.iter().filter(|seen| **seen == kind).count())
    }

    // Sends the forgeries of a message that is about to be sent.
    fn forge(&mut self, chain: u8, message: &Message) -> Result<(), Refusal> {
        let kind = message.kind();
        let number = self.number_of(kind)?;
        for group in self.groups.iter().skip(self.log.sent()) {
            if !group.is_of(kind, number) {
                return Ok(());
            }
            self.send_next(chain, message, group)?;
        }
        Ok(())
    }

    // Sends a message, and its forgeries before it.
    fn ask_message(&mut self, chain: u8, message: Message) -> Result<Reply, Refusal> {
        match self.forge(chain, &message) {
            Ok(()) => self.ledgers.ask(Event::Message { chain, message }),
            Err(refusal) => {
                drop(message);
                Err(refusal)
            }
        }
    }

    // Ends a block, and keeps its root.
    fn ask_block(&mut self, chain: u8, next_time: u64) -> Result<Reply, Refusal> {
        let reply = self.ledgers.ask(Event::Block { chain, next_time })?;
        match self.note_block(&reply) {
            Ok(()) => Ok(reply),
            Err(refusal) => {
                drop(reply);
                Err(refusal)
            }
        }
    }

    // Keeps the root of a block that has ended.
    fn note_block(&self, reply: &Reply) -> Result<(), Refusal> {
        match reply {
            Reply::Ok(Effect::Block(_, root)) => self.log.note_root(*root),
            _ => Ok(()),
        }
    }
}

impl Chains for ForgedChains<'_> {
    fn ask(&mut self, event: Event) -> Result<Reply, Refusal> {
        match event {
            Event::Message { chain, message } => self.ask_message(chain, message),
            Event::Block { chain, next_time } => self.ask_block(chain, next_time),
        }
    }

    fn value(&self, chain: u8, key: &Key) -> Result<Option<Bytes>, Refusal> {
        self.ledgers.value(chain, key)
    }

    fn packet(
        &self,
        chain: u8,
        port: &PortId,
        channel: &ChannelId,
        sequence: u64,
    ) -> Result<Option<Packet>, Refusal> {
        self.ledgers.packet(chain, port, channel, sequence)
    }

    fn ack(
        &self,
        chain: u8,
        port: &PortId,
        channel: &ChannelId,
        sequence: u64,
    ) -> Result<Option<Bytes>, Refusal> {
        self.ledgers.ack(chain, port, channel, sequence)
    }

    fn proof(&self, chain: u8, height: u64, key: &Key) -> Result<Option<Proof>, Refusal> {
        self.ledgers.proof(chain, height, key)
    }

    fn block(&self, chain: u8, height: u64) -> Option<CommittedBlock> {
        self.ledgers.block(chain, height)
    }

    fn working_time(&self, chain: u8) -> Result<u64, Refusal> {
        self.ledgers.working_time(chain)
    }

    fn plans(&self, first: u8, second: u8) -> Result<(Vec<Message>, Vec<Message>), Refusal> {
        self.ledgers.plans(first, second)
    }
}

impl Holdings for ForgedChains<'_> {
    fn totals(&self, chain: u8, channel: &ChannelId, denom: &Denom) -> Result<Totals, Refusal> {
        self.ledgers.totals(chain, channel, denom)
    }

    fn balances(&self, chain: u8) -> Result<Vec<(Account, Denom, u128)>, Refusal> {
        self.ledgers.balances(chain)
    }

    fn notes(&self, chain: u8) -> Result<Vec<(ChannelId, Vec<Bytes>)>, Refusal> {
        self.ledgers.notes(chain)
    }
}
