//! What a ledger does with messages.

ghost use Rattle.std.specs.Prelude.{◌≡◌};
ghost use Rattle.ibc_ledger.specs.MessageReplies.{IsReady, IsAnswer};
ghost use Rattle.ibc_ledger.specs.HistoryGrowth.{AddsMessage};
ghost use Rattle.ibc_ledger.specs.PassGrowth.{SeesFurther};

use crate::entry::seen_if;
use crate::host_state::HostState;
use crate::outcome::{Outcome, replies};
use crate::{Ledger, StampedEntry};
use ibc_ids::Refusal;
use ibc_machine::{Entry, Event, Reply};
use ibc_root_table::{Pass, RootTable};
use ibc_wire::Message;

impl Ledger {
    /// Applies a message to the working block. The history then has one entry more, with the message and the reply; where
    /// the reply is `NoMemory`, nothing has changed but what the pass has seen.
    pub fn apply(&mut self, message: Message) -> Reply
        ensures table { self.new.table ≡ self.old.table }
        ensures adds { AddsMessage self.old.ledger message result self.new.ledger }
    {
        let Ok(()) = self.history.reserve(1) else {
            drop(message);
            return Reply::No(Refusal::NoMemory);
        };
        let Ok(sender) = self.sent.make_room(self.node.alloc, &message) else {
            drop(message);
            return Reply::No(Refusal::NoMemory);
        };
        message.lemma_typed();
        self.node.records.lemma_orderly();
        let chain = self.node.number;
        let outcome = self.node.answer(&self.table, &mut self.pass, &message);
        let reading = outcome.reading;
        let Ok((reply, kept)) = replies(outcome.result) else {
            drop(sender);
            drop(message);
            return Reply::No(Refusal::NoMemory);
        };
        let seen = seen_if(&self.pass, reading.is_some());
        self.sent.keep_first(sender, &kept, self.history.len());
        self.history.push_reserved(StampedEntry {
            entry: Entry {
                event: Event::Message { chain, message },
                reply: kept,
                reading,
            },
            seen,
        });
        reply
    }
}

impl HostState {
    // What becomes of a message.
    fn answer(&mut self, table: &RootTable, pass: &mut Pass, message: &Message) -> Outcome
        requires table { pass.old.table ≡ table.now }
        requires ready { IsReady message.now self.old }
        ensures answer { IsAnswer message.now self.old pass.old result self.new pass.new }
        ensures pass { SeesFurther pass.old pass.new }
    {
        match message {
            Message::CreateClient(message) => Outcome::unread(self.create_client(message)),
            Message::UpdateClient(message) => self.update_client(table, pass, message),
            Message::ConnOpenInit(message) => Outcome::unread(self.conn_open_init(message)),
            Message::ConnOpenTry(message) => Outcome::unread(self.conn_open_try(message)),
            Message::ConnOpenAck(message) => Outcome::unread(self.conn_open_ack(message)),
            Message::ConnOpenConfirm(message) => Outcome::unread(self.conn_open_confirm(message)),
            Message::ChanOpenInit(message) => Outcome::unread(self.chan_open_init(message)),
            Message::ChanOpenTry(message) => Outcome::unread(self.chan_open_try(message)),
            Message::ChanOpenAck(message) => Outcome::unread(self.chan_open_ack(message)),
            Message::ChanOpenConfirm(message) => Outcome::unread(self.chan_open_confirm(message)),
            Message::ChanCloseInit(message) => Outcome::unread(self.chan_close_init(message)),
            Message::ChanCloseConfirm(message) => Outcome::unread(self.chan_close_confirm(message)),
            Message::Transfer(message) => Outcome::unread(self.transfer(message)),
            Message::TransferMany(message) => Outcome::unread(self.transfer_many(message)),
            Message::SendNote(message) => Outcome::unread(self.send_note(message)),
            Message::RecvPacket(message) => Outcome::unread(self.recv_packet(message)),
            Message::AckPacket(message) => Outcome::unread(self.ack_packet(message)),
            Message::Timeout(message) => Outcome::unread(self.timeout(message)),
            Message::TimeoutOnClose(message) => Outcome::unread(self.timeout_on_close(message)),
        }
    }
}
