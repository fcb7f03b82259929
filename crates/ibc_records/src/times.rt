//! When packets are too late.

ghost use Rattle.std.specs.Prelude.{◌≡◌, ◌+◌, ◌-◌, ◌^◌, min};
ghost use Rattle.ibc_machine.specs.ics04.Packets as plain;
ghost use Rattle.ibc_machine.specs.chain.Records.{commitment_of};
ghost use Rattle.ibc_path_store.specs.StoreModel.{height_of};
ghost use Rattle.ibc_records.specs.TimeoutChecks.{is_too_late};

use crate::Records;
use ibc_wire::Packet;

/// Whether a limit, which is none where it is 0, is reached.
pub fn is_reached(limit: u64, now: u64) -> bool
    ensures { result ≡ plain.is_reached limit now }
{
    limit != 0 && limit <= now
}

/// Whether one of a packet's timeouts is reached at a height and a time.
pub fn is_timed_out(packet: &Packet, height: u64, time: u64) -> bool
    ensures { result ≡ plain.is_timed_out (commitment_of packet.now) height time }
{
    is_reached(packet.timeout_height, height) || is_reached(packet.timeout_time, time)
}

/// Whether one of a packet's timeouts is reached in the working block.
pub fn is_late(records: &Records, packet: &Packet) -> bool
    ensures { result ≡ is_too_late records.now packet.now }
{
    is_reached(packet.timeout_height, working_height(records))
        || is_reached(packet.timeout_time, records.time())
}

// The height of the working block, which isn't counted beyond 2^64 - 1.
fn working_height(records: &Records) -> u64
    ensures { result ≡ min (height_of records.now.store + 1) (2 ^ 64 - 1) }
{
    records.height().saturating_add(1)
}
