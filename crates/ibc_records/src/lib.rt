//! What a chain proves to others, in plain, with the store that is its image (ICS 24, "Provable store"). What it does with the
//! messages of clients and packets, and how it judges what messages prove (ICS 2, and ICS 4, "Packet flow & handling"). What
//! channels and packets ask of the application of a port, and who pays for what is sent over it.
#![tactic(auto)]

mod acknowledgement;
mod acknowledging;
mod application;
mod channel;
mod channel_entries;
mod claims;
mod client;
mod commitment;
mod core_records;
mod create_client;
mod ends;
mod evidence;
mod forms;
mod header_check;
mod maps;
mod packet_entries;
mod packet_values;
mod payment;
mod peers;
mod proof_check;
mod receiving;
mod records;
mod sending;
mod times;
mod timing_out;
mod timing_out_on_close;
mod update_client;
mod values;

pub use acknowledging::acknowledge;
pub use application::App;
pub use channel::Channel;
pub use client::{Client, ConsensusState};
pub use commitment::Commitment;
pub use core_records::CoreRecords;
pub use create_client::create;
pub use evidence::{check_client, check_known, check_number, known_connection, read_proof};
pub use forms::has_size;
pub use maps::{Channels, Clients, Connections};
pub use packet_values::{ack_value, commitment_value};
pub use payment::{NoPayer, Pays};
pub use peers::{PeerClaim, check_claim, check_claim_with, claim_peer, name_or_none};
pub use proof_check::{
    check_absent, check_absent_with, check_path, check_path_with, check_present,
    check_present_with, known_time, knows,
};
pub use receiving::recv;
pub use records::{NextNumbers, Records};
pub use sending::{check_timeouts, sending_end};
pub use timing_out::timeout;
pub use timing_out_on_close::timeout_on_close;
pub use update_client::{Updated, update};
pub use values::{channel_value, client_value, connection_value};
