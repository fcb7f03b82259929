//! Packets that are equal in every field.

ghost use Rattle.std.specs.Prelude.{◌≡◌};
ghost use Rattle.ibc_law_checks.specs.SamePackets.{same_packet};

use ibc_wire::Packet;

/// Whether two packets are equal in every field.
pub(crate) fn is_same(packet: &Packet, other: &Packet) -> bool
    ensures { result ≡ same_packet packet.now other.now }
{
    packet.sequence == other.sequence
        && packet.timeout_height == other.timeout_height
        && packet.timeout_time == other.timeout_time
        && packet.source_port == other.source_port
        && packet.source_channel == other.source_channel
        && packet.destination_port == other.destination_port
        && packet.destination_channel == other.destination_channel
        && packet.payload == other.payload
}
