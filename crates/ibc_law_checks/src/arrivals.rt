//! Whether packets arrive in time.

ghost use Rattle.std.specs.Prelude.{◌≡◌, ◌↔◌, IsTrue};
ghost use Rattle.ibc_laws.specs.Ends.{IsAhead};
ghost use Rattle.ibc_law_checks.specs.Arrivals.{is_ahead, is_in_time, AreTimeoutsAhead};

use ibc_wire::Packet;

/// Whether both timeouts of a packet lie ahead of a block of this height and time (ICS 4, "recvPacket").
pub fn is_in_time(packet: &Packet, height: u64, time: u64) -> bool
    ensures ahead { IsTrue result ↔ AreTimeoutsAhead packet.now height time }
    ensures test { result ≡ is_in_time packet.now height time }
{
    is_ahead(packet.timeout_height, height) && is_ahead(packet.timeout_time, time)
}

// Whether a timeout is none, or lies ahead.
fn is_ahead(timeout: u64, now: u64) -> bool
    ensures ahead { IsTrue result ↔ IsAhead timeout now }
    ensures test { result ≡ is_ahead timeout now }
{
    timeout == 0 || now < timeout
}
