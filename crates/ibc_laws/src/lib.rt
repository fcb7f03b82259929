//! The laws of every run of the machine, from any allowed genesis (ICS 4, "Desired Properties"). Each is the
//! contract of a function that does nothing: to call it is to cite the law.
#![tactic(auto)]

ghost use Rattle.ibc_machine.specs.promises.Laws.{Conserved, ExactlyOnce, InOrder, NeverPoor, NeverShort, OnePeer};
ghost use Rattle.ibc_machine.specs.ics20.TokenData.{ReadsData};
ghost use Rattle.ibc_laws.specs.Moments.{EachMoment};
ghost use Rattle.ibc_laws.specs.Packets.{ReceivedWasSent, TakenAsWritten};
ghost use Rattle.ibc_laws.specs.Ends.{AcknowledgedInOrder, ClosedIsSilent, PeersAgree, ReceivedInTime, SettledWasSent, TakenOfPeer};
ghost use Rattle.ibc_laws.specs.Tokens.{NoVoucherWithoutEscrow, SupplyStays, WasNeverShort, WhoPays};
ghost use Rattle.ibc_laws.specs.Payments.{EachBalance, WhoIsPaid};
ghost use Rattle.ibc_laws.specs.StoredNotes.{NotesAreReceived, NotesStay, NotesWereSent};
ghost use Rattle.ibc_laws.specs.OneLawAlone.{OneLawAlone};

/// Each end of a channel that is OPEN or CLOSED has exactly one peer, and no end has two.
pub fn lemma_each_end_has_one_peer()
    ensures { OnePeer }
{}

/// No packet is both received and timed out. Each is received at most once, and acknowledged or timed out at
/// most once in all; one that was acknowledged was received.
pub fn lemma_each_packet_is_handled_once()
    ensures { ExactlyOnce }
{}

/// On an ordered channel what one end received is a beginning of what the other sent, equal in every field.
pub fn lemma_each_ordered_channel_delivers_in_order()
    ensures { InOrder }
{}

/// The escrow of a channel equals the vouchers present and under way, of each denomination that doesn't begin with
/// the channel's own hop.
pub fn lemma_escrow_equals_vouchers_and_flight()
    ensures { Conserved }
{}

/// No acknowledgement and no timeout of a packet is refused because an escrow holds too little for the refund.
pub fn lemma_no_refund_is_refused()
    ensures { NeverPoor }
{}

/// No escrow holds too little at a receive: before a packet is received, the escrow of its destination holds each of
/// its tokens that comes home.
pub fn lemma_no_escrow_is_short()
    ensures { NeverShort }
{}

/// Each event of the past came between two worlds, the one just before it and the one just after.
pub fn lemma_each_event_has_its_moment()
    ensures { EachMoment }
{}

/// No escrow held too little at any receive of the past.
pub fn lemma_no_escrow_was_short()
    ensures { WasNeverShort }
{}

/// Whatever an end received, on any channel, its peer sent, equal in every field.
pub fn lemma_what_is_received_was_sent()
    ensures { ReceivedWasSent }
{}

/// The acknowledgement that an end takes of a packet is the one that the packet's receiver wrote.
pub fn lemma_acknowledgements_are_taken_as_written()
    ensures { TakenAsWritten }
{}

/// What an end took as acknowledged or timed out, also on close, is what it sent under that number, equal in every
/// field. What was acknowledged was received, equal in every field.
pub fn lemma_what_is_settled_was_sent()
    ensures { SettledWasSent }
{}

/// Nothing is received at or behind its timeout, by height or by time of the receiving chain's working block.
pub fn lemma_nothing_is_received_late()
    ensures { ReceivedInTime }
{}

/// Acknowledgements of an ordered channel are taken in order, without a gap.
pub fn lemma_acknowledgements_are_taken_in_order()
    ensures { AcknowledgedInOrder }
{}

/// A CLOSED end stays CLOSED, and sends, receives and acknowledges nothing more. It may still time out what it sent.
pub fn lemma_a_closed_end_is_silent()
    ensures { ClosedIsSilent }
{}

/// An end without a peer takes nothing: whatever an end received, acknowledged or timed out, it has a peer.
pub fn lemma_no_end_takes_without_a_peer()
    ensures { TakenOfPeer }
{}

/// Peers agree on the channel's order and version.
pub fn lemma_peers_agree()
    ensures { PeersAgree }
{}

/// The supply of a base denomination on a chain, escrows included, stays what the genesis gave.
pub fn lemma_the_supply_at_home_stays()
    ensures { SupplyStays }
{}

/// What else a chain holds came over one of its channels, and that channel's peer holds as much of it in escrow.
pub fn lemma_no_voucher_is_without_escrow()
    ensures { NoVoucherWithoutEscrow }
{}

/// A user's balance falls only by an accepted transfer of that user, and by no more than it sends.
pub fn lemma_only_the_sender_pays()
    ensures { WhoPays }
{}

/// A user's balance changes in each step by just what the user receives, gets back and sends: what is received is paid
/// to the receiver that the packet's data names, and a refund to the sender that it names.
pub fn lemma_the_named_are_paid()
    ensures { WhoIsPaid }
{}

/// A user's balance is what the genesis gave, with all that the user received and got back, less all that the user
/// sent.
pub fn lemma_a_balance_is_its_history()
    ensures { EachBalance }
{}

/// The notes that a chain keeps under a channel are those of the packets that the channel's end received, in order.
pub fn lemma_notes_are_as_received()
    ensures { NotesAreReceived }
{}

/// A note that is kept stays, at its place.
pub fn lemma_notes_stay()
    ensures { NotesStay }
{}

/// The notes that are kept are the first of those that the peer sent, in the order in which it sent them.
pub fn lemma_notes_are_as_sent()
    ensures { NotesWereSent }
{}

/// Thirteen machines that are wrong have runs that one further law alone refuses: the four laws hold of them, with what
/// follows from the fourth, and all other further laws. Of each run of the machine itself all further laws hold, in the
/// same words.
pub fn lemma_the_further_laws_refuse_more()
    ensures { OneLawAlone }
{}

/// The data that a packet of tokens is read as is the good data that its payload spells, and good data is read back
/// from its one spelling, in both versions.
pub fn lemma_packet_data_is_read_back()
    ensures { ReadsData }
{}
