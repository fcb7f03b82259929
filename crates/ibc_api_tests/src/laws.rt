//! Wrong histories, made by hand: each law is seen broken.

use ibc_ids::{Bytes, Name};
use ibc_law_checks::{Lane, PacketLaw, Passing, is_even, is_in_time};
use ibc_machine::Totals;
use ibc_wire::Packet;
use std::alloc::Global;
use std::process::Abort;

/// What happens to a packet of a sequence, or to one like it with another payload.
#[derive(Clone, Copy, Debug)]
enum Happening {
    Sent(u64),
    Received(u64),
    ReceivedForged(u64),
    Acknowledged(u64),
    AcknowledgedForged(u64),
    TimedOut(u64),
}

// The packet of a sequence, with a payload.
fn packet(rt: &impl Abort, alloc: Global, sequence: u64, payload: &[u8]) -> Packet {
    Packet {
        sequence,
        timeout_height: 7,
        timeout_time: 0,
        source_port: Name::parse(alloc, "note").expect(rt, "a port"),
        source_channel: Name::parse(alloc, "channel-0").expect(rt, "a channel"),
        destination_port: Name::parse(alloc, "note").expect(rt, "a port"),
        destination_channel: Name::parse(alloc, "channel-1").expect(rt, "a channel"),
        payload: Bytes::copy_of(alloc, payload).expect(rt, "memory"),
    }
}

// How the packet passes, its sequence, and its payload.
fn passing_of(happening: Happening) -> (Passing, u64, &'static [u8]) {
    match happening {
        Happening::Sent(sequence) => (Passing::Sent, sequence, b"one"),
        Happening::Received(sequence) => (Passing::Received, sequence, b"one"),
        Happening::ReceivedForged(sequence) => (Passing::Received, sequence, b"two"),
        Happening::Acknowledged(sequence) => (Passing::Acknowledged, sequence, b"one"),
        Happening::AcknowledgedForged(sequence) => (Passing::Acknowledged, sequence, b"two"),
        Happening::TimedOut(sequence) => (Passing::TimedOut, sequence, b"one"),
    }
}

// Has it happen. The result is the law that breaks.
fn pass(
    rt: &impl Abort,
    alloc: Global,
    lane: &mut Lane,
    happening: Happening,
) -> Option<PacketLaw> {
    let (passing, sequence, payload) = passing_of(happening);
    lane.pass(passing, &packet(rt, alloc, sequence, payload))
        .expect(rt, "memory")
}

// The law that breaks by the last of what happens on a channel; nothing else breaks one.
fn broken_by(
    rt: &impl Abort,
    alloc: Global,
    ordered: bool,
    happenings: &[Happening],
) -> Option<PacketLaw> {
    let mut lane = Lane::new(alloc, ordered);
    let mut broken = None;
    for happening in happenings {
        assert!(rt; broken.is_none(), "a law broke before {happening:?}");
        broken = pass(rt, alloc, &mut lane, *happening);
    }
    broken
}

#[test]
fn each_law_of_packets_is_seen_broken(rt: HostRuntime) {
    use Happening::{Acknowledged, AcknowledgedForged, Received, ReceivedForged, Sent, TimedOut};
    let alloc = rt.alloc();
    for (happenings, law) in [
        ([Sent(1), Sent(2), Sent(2)], PacketLaw::SentInTurn),
        ([Sent(1), Sent(2), Received(3)], PacketLaw::ReceivedWasSent),
        (
            [Sent(1), Sent(2), ReceivedForged(2)],
            PacketLaw::ReceivedWasSent,
        ),
        ([Sent(1), Received(1), Received(1)], PacketLaw::ReceivedOnce),
        ([Sent(1), TimedOut(1), Received(1)], PacketLaw::NotBoth),
        ([Sent(1), Received(1), TimedOut(1)], PacketLaw::NotBoth),
        (
            [Sent(1), Received(1), AcknowledgedForged(1)],
            PacketLaw::SettledWasSent,
        ),
        ([Sent(1), Sent(2), TimedOut(3)], PacketLaw::SettledWasSent),
        (
            [Sent(1), Sent(2), Acknowledged(1)],
            PacketLaw::AcknowledgedReceived,
        ),
        ([Sent(1), TimedOut(1), TimedOut(1)], PacketLaw::SettledOnce),
    ] {
        for ordered in [false, true] {
            let broken = broken_by(&rt, alloc, ordered, happenings.as_slice());
            assert_eq!(rt; broken, Some(law));
        }
    }
}

#[test]
fn an_ordered_channel_keeps_its_order(rt: HostRuntime) {
    use Happening::{Acknowledged, Received, Sent};
    let alloc = rt.alloc();
    let received = [Sent(1), Sent(2), Received(2)];
    let law = Some(PacketLaw::ReceivedInOrder);
    assert_eq!(rt; broken_by(&rt, alloc, true, received.as_slice()), law);
    assert_eq!(rt; broken_by(&rt, alloc, false, received.as_slice()), None);
    let taken = [Sent(1), Sent(2), Received(1), Received(2), Acknowledged(2)];
    let law = Some(PacketLaw::AcknowledgedInOrder);
    assert_eq!(rt; broken_by(&rt, alloc, true, taken.as_slice()), law);
    assert_eq!(rt; broken_by(&rt, alloc, false, taken.as_slice()), None);
}

#[test]
fn a_late_packet_is_late(rt: HostRuntime) {
    let late = packet(&rt, rt.alloc(), 1, b"one");
    for (height, time, want) in [(6, 900, true), (7, 0, false), (8, 0, false)] {
        assert_eq!(rt; is_in_time(&late, height, time), want, "at {height}");
    }
}

#[test]
fn an_uneven_escrow_is_uneven(rt: HostRuntime) {
    for (escrow, vouchers, out, back, want) in [
        (10, 5, 3, 2, true),
        (10, 5, 3, 1, false),
        (9, 5, 3, 2, false),
        (0, u128::MAX, 1, 0, false),
    ] {
        let totals = Totals {
            escrow,
            vouchers,
            out,
            back,
        };
        assert_eq!(rt; is_even(totals), want);
    }
}
