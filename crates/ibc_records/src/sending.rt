//! Sending packets: the checks, between which an application has its own.

ghost use Rattle.std.specs.Prelude.{◌≡◌, ◌&&◌, ◌==◌, IfOk};
ghost use Rattle.ibc_records.specs.OwnEnds.{IsEndAt};
ghost use Rattle.ibc_records.specs.Sending.{IsSendingEnd, AreJudgedTimeouts, IsReachedTimeout, IsReachedLimit};

use crate::ends::{find_channel, is_open};
use crate::times::is_reached;
use crate::{Channel, Records, known_time};
use ibc_ids::{ChannelId, ClientId, PortId, Refusal};

/// The end of a port that may send (ICS 4, "sendPacket"). Refused, by the first check that fails: `UnknownChannel`;
/// `WrongState` where the end isn't in `Open`; and `NoMemory` where a growth is refused.
pub fn sending_end<'a>(
    records: &'a Records,
    port: &PortId,
    channel: &ChannelId,
) -> Result<&'a Channel, Refusal>
    ensures passed { IsSendingEnd records.now port.now channel.now result }
    ensures there { IfOk result (λ mine. IsEndAt records.now port.now channel.now mine.now) }
{
    let mine = find_channel(records, port, channel)?;
    if !is_open(mine) {
        return Err(Refusal::WrongState);
    }
    Ok(mine)
}

/// A packet with these timeouts, of which 0 is none, may be sent from an end (ICS 4, "sendPacket"). Refused, by the first
/// check that fails: `NoTimeout` where both are none; `TimeoutPassed` where one is reached at the latest height that the
/// end's client knows of the peer.
pub fn check_timeouts(
    records: &Records,
    mine: &Channel,
    timeout_height: u64,
    timeout_time: u64,
) -> Result<(), Refusal>
    ensures { AreJudgedTimeouts records.now mine.now timeout_height timeout_time result }
{
    if has_no_timeout(timeout_height, timeout_time) {
        return Err(Refusal::NoTimeout);
    }
    if has_passed(records, mine, timeout_height, timeout_time) {
        return Err(Refusal::TimeoutPassed);
    }
    Ok(())
}

// Whether both timeouts are none.
fn has_no_timeout(timeout_height: u64, timeout_time: u64) -> bool
    ensures { result ≡ ((timeout_height == 0) && (timeout_time == 0)) }
{
    timeout_height == 0 && timeout_time == 0
}

// Whether a timeout is reached at the latest height that the end's client knows.
fn has_passed(records: &Records, mine: &Channel, timeout_height: u64, timeout_time: u64) -> bool
    ensures { IsReachedTimeout records.now mine.now timeout_height timeout_time result }
{
    records.lemma_names_have_form();
    let Some(connection) = records.connection(&mine.end().connection) else {
        return false;
    };
    let Some(client) = records.client(&connection.client) else {
        return false;
    };
    let latest = client.state().latest;
    is_reached(timeout_height, latest)
        || is_reached_at(records, &connection.client, latest, timeout_time)
}

// Whether a client knows a height, whose time has reached a limit.
fn is_reached_at(records: &Records, client: &ClientId, height: u64, limit: u64) -> bool
    ensures { IsReachedLimit records.now client.now height limit result }
{
    match known_time(records, client, height) {
        Some(time) => is_reached(limit, time),
        None => false,
    }
}
