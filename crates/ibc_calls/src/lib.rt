//! The calls of the library for programs that are not Rattle's, by handles and bytes, and what a verifier asks that has no ledger: whether bytes are a
//! message or a proof, and what a proof shows under a root. Each is refused for a reason that has a number (`Refused`). `ibc_c` exports them.
#![tactic(auto)]

mod answer;
mod channel_totals;
mod digests;
mod events;
mod evidence;
mod forms;
mod gathering;
mod genesis;
mod handles;
mod history;
mod holdings;
mod messages;
mod notes;
mod packets;
mod proofs;
mod proving;
mod reads;
mod replayed;
mod sent;
mod stored;
mod tokens;
mod views;
mod worlds;

pub use answer::{Refused, number};
pub use channel_totals::{ChannelTotals, totals};
pub use digests::{first_digest, next_digest};
pub use events::{apply, end_block};
pub use evidence::{message_proof, proof_key, proof_value};
pub use forms::{proof_of_ics23, proof_to_ics23};
pub use gathering::{join_ledger, make_audit};
pub use genesis::{add_balance, add_chain, make_genesis};
pub use handles::free;
pub use history::{EventCode, ReplyCode, history_event, history_reply, length};
pub use holdings::{holding, holding_amount, holding_count, make_balances};
pub use messages::{Carried, carried_proof, tag_of};
pub use notes::{make_notes, note, note_channel, note_channel_count, note_count};
pub use packets::{PacketNumbers, message_ack, message_packet, packet_numbers, packet_part};
pub use proofs::{ProofKind, key_of, kind_of, show_absent, show_present, value_of};
pub use proving::prove;
pub use reads::{Amount, balance, escrow, plan_message, query, supply};
pub use replayed::make_replayed;
pub use sent::{sent_packet, written_ack};
pub use stored::{EntryNumbers, add_entry, history_stored, make_entries};
pub use tokens::{data_count, data_part, data_token};
pub use views::{
    ViewHeights, make_plan, make_view, share_view, view_heights, view_proof, view_root,
};
pub use worlds::{make_ledgers, take_ledger};
