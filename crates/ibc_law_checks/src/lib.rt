//! What a world's histories and calls break of the laws, as far as that can be computed event by event.
#![tactic(auto)]

mod arrivals;
mod checks;
mod ends;
mod finding;
mod lane;
mod made;
mod movement;
mod passages;
mod same_packet;
mod supplies;
mod token_places;

pub use arrivals::is_in_time;
pub use checks::LawChecks;
pub use ends::{ChainClock, EndNotes, place_of_end};
pub use finding::{BrokenLaw, Finding, PacketLaw};
pub use lane::Lane;
pub use movement::{Movement, Passing};
pub use passages::{acknowledged_by, received_by, timed_out_by};
pub use supplies::{HomeSupply, first_changed_supply};
pub use token_places::{TokenPlace, first_unbalanced, is_even};
