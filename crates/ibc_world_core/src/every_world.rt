//! What every world keeps, on one page: `specs/EveryWorld`. A world begins with no entries (`World::new`), and each event
//! that has an entry is the next of those that it keeps (`World::step`, `World::run`). The page speaks of these entries.

ghost use Rattle.ibc_laws.specs.EveryLaw.{EveryLaw};
ghost use Rattle.ibc_world_core.specs.EveryWorld.{IsLawfulUnlessClash};

use crate::World;
use ibc_laws::{
    lemma_a_balance_is_its_history, lemma_a_closed_end_is_silent,
    lemma_acknowledgements_are_taken_as_written, lemma_acknowledgements_are_taken_in_order,
    lemma_each_end_has_one_peer, lemma_each_event_has_its_moment,
    lemma_each_ordered_channel_delivers_in_order, lemma_each_packet_is_handled_once,
    lemma_escrow_equals_vouchers_and_flight, lemma_no_end_takes_without_a_peer,
    lemma_no_escrow_is_short, lemma_no_escrow_was_short, lemma_no_refund_is_refused,
    lemma_no_voucher_is_without_escrow, lemma_notes_are_as_received, lemma_notes_are_as_sent,
    lemma_notes_stay, lemma_nothing_is_received_late, lemma_only_the_sender_pays,
    lemma_peers_agree, lemma_the_named_are_paid, lemma_the_supply_at_home_stays,
    lemma_what_is_received_was_sent, lemma_what_is_settled_was_sent,
};

/// Whatever a world was asked, its replies and states are a run of the machine since genesis, of which the laws hold. The
/// function does nothing: to call it is to cite what it says.
pub fn lemma_what_every_world_keeps(world: &World)
    ensures { IsLawfulUnlessClash world.now }
{
    world.lemma_has_past();
    lemma_the_laws_hold();
}

/// The laws of every run of the machine, all together.
pub fn lemma_the_laws_hold()
    ensures { EveryLaw }
{
    lemma_each_end_has_one_peer();
    lemma_each_packet_is_handled_once();
    lemma_each_ordered_channel_delivers_in_order();
    lemma_escrow_equals_vouchers_and_flight();
    lemma_no_refund_is_refused();
    lemma_no_escrow_is_short();
    lemma_each_event_has_its_moment();
    lemma_no_escrow_was_short();
    lemma_what_is_received_was_sent();
    lemma_acknowledgements_are_taken_as_written();
    lemma_what_is_settled_was_sent();
    lemma_nothing_is_received_late();
    lemma_acknowledgements_are_taken_in_order();
    lemma_a_closed_end_is_silent();
    lemma_no_end_takes_without_a_peer();
    lemma_peers_agree();
    lemma_the_supply_at_home_stays();
    lemma_no_voucher_is_without_escrow();
    lemma_only_the_sender_pays();
    lemma_the_named_are_paid();
    lemma_a_balance_is_its_history();
    lemma_notes_are_as_received();
    lemma_notes_stay();
    lemma_notes_are_as_sent();
}
