//! The channels of a run, and what users send over them.

use crate::behind::made_behind;
use crate::names::{TOKENS, numbered};
use crate::network::Network;
use crate::random::Random;
use crate::run_error::RunError;
use ibc_ids::{
    Account, Bytes, ChannelId, ClientId, Denom, Memo, Name, PortId, Receiver, UserName,
    nth_channel, nth_client,
};
use ibc_script::Application;
use ibc_wire::{Message, SendNote, Transfer};
use std::alloc::Global;

/// An end of a channel, with the client that its chain has of the other one.
#[derive(Drop)]
pub struct LaneEnd {
    pub chain: u8,
    pub peer: u8,
    pub application: Application,
    pub channel: ChannelId,
    pub client: ClientId,
}

/// Who sends over the ends of channels, and how long the packets may take.
#[derive(Clone, Copy)]
pub struct Traffic {
    /// How many users each chain has.
    pub users: u64,
    /// One in so many packets over unordered channels times out; 0 where none does.
    pub late: u64,
}

impl LaneEnd {
    // The end that a chain has just opened.
    fn newest(
        network: &Network,
        chain: u8,
        peer: u8,
        application: Application,
    ) -> Result<LaneEnd, RunError> {
        let Some(number) = network.channels(chain).checked_sub(1) else {
            return Err(RunError::Unexpected("no channel was opened"));
        };
        Ok(LaneEnd {
            chain,
            peer,
            application,
            channel: nth_channel(network.alloc, number)?,
            client: nth_client(network.alloc, number)?,
        })
    }

    /// The port of the end.
    pub fn port(&self, alloc: Global) -> Result<PortId, RunError> {
        Ok(self.application.port(alloc)?)
    }

    // A copy of its channel's name.
    fn own_channel(&self) -> Result<ChannelId, RunError> {
        Ok(self.channel.clone()?)
    }

    /// The port and the channel of the end.
    pub fn port_and_channel(&self, alloc: Global) -> Result<(PortId, ChannelId), RunError> {
        made_behind(self.port(alloc)?, self.own_channel())
    }
}

/// Opens a channel between two chains, and adds both ends to those of the run.
pub fn open_lane(
    network: &mut Network,
    ends: &mut Vec<LaneEnd>,
    first: u8,
    second: u8,
    application: Application,
) -> Result<(), RunError> {
    network.open(first, second, application)?;
    ends.push(LaneEnd::newest(network, first, second, application)?)?;
    ends.push(LaneEnd::newest(network, second, first, application)?)?;
    Ok(())
}

// The height of the peer at which a packet times out: the next one where it is to be late.
fn timeout_of(network: &Network, random: &mut Random, end: &LaneEnd, late: u64) -> u64 {
    let height = network.height(end.peer);
    if late != 0 && random.is_one_in(late) {
        height.saturating_add(1)
    } else {
        height.saturating_add(100_000)
    }
}

// What is drawn at random of a transfer.
#[derive(Clone, Copy)]
struct DrawnTransfer {
    // The number of the user.
    user: u64,
    // The place of the token.
    token: usize,
    // The number of the channel over which it came, if it isn't the chain's own.
    channel: Option<u64>,
    // The most that is sent of it.
    most: u64,
    // The number of the receiver.
    receiver: u64,
    // The number in the memo, mostly none.
    memo: Option<u64>,
    // The height of the peer at which the packet times out.
    timeout_height: u64,
}

// Draws a transfer.
fn draw(network: &Network, random: &mut Random, end: &LaneEnd, traffic: Traffic) -> DrawnTransfer {
    let user = random.below(traffic.users);
    let token = random.place(TOKENS.len());
    let channel = drawn_channel(random, network.channels(end.chain));
    let most = random.below(100).saturating_add(1);
    let receiver = random.below(traffic.users);
    let memo = drawn_memo(random);
    DrawnTransfer {
        user,
        token,
        channel,
        most,
        receiver,
        memo,
        timeout_height: timeout_of(network, random, end, traffic.late),
    }
}

// The number of one of so many channels, or none.
fn drawn_channel(random: &mut Random, channels: u64) -> Option<u64> {
    if random.is_one_in(2) {
        Some(random.below(channels))
    } else {
        None
    }
}

// The number in a memo, mostly none.
fn drawn_memo(random: &mut Random) -> Option<u64> {
    if random.is_one_in(4) {
        Some(random.number())
    } else {
        None
    }
}

// The memo with a number, or an empty one.
fn memo(alloc: Global, number: Option<u64>) -> Result<Memo, RunError> {
    match number {
        Some(number) => numbered(
            alloc,
            "payment of the invoice that was sent last week, number ",
            number,
        ),
        None => Ok(Name::parse(alloc, "")?),
    }
}

// A token of the chain itself, or one that came over a channel of it and that the user holds; and the most that can be sent of it.
fn denom(
    network: &Network,
    chain: u8,
    user: &UserName,
    drawn: DrawnTransfer,
) -> Result<(Denom, u128), RunError> {
    let token = TOKENS.get(drawn.token).copied().unwrap_or("atom");
    let own: Denom = Name::parse(network.alloc, token)?;
    let held = match drawn.channel {
        Some(number) => held_voucher(network, chain, user, &own, number),
        None => Ok(None),
    };
    match held {
        Ok(Some(held)) => {
            drop(own);
            Ok(held)
        }
        Ok(None) => Ok((own, 1_000)),
        Err(error) => {
            drop(own);
            Err(error)
        }
    }
}

// The token that came over the channel with a number, and what the user holds of it; none where that is nothing.
fn held_voucher(
    network: &Network,
    chain: u8,
    user: &UserName,
    own: &Denom,
    number: u64,
) -> Result<Option<(Denom, u128)>, RunError> {
    let voucher = voucher(network.alloc, own, number)?;
    match held(network, chain, user, &voucher) {
        Ok(0) => {
            drop(voucher);
            Ok(None)
        }
        Ok(held) => Ok(Some((voucher, held))),
        Err(error) => {
            drop(voucher);
            Err(error)
        }
    }
}

// The denomination of a token that came over the channel with a number.
fn voucher(alloc: Global, own: &Denom, number: u64) -> Result<Denom, RunError> {
    let channel = nth_channel(alloc, number)?;
    let voucher = over(alloc, own, &channel);
    drop(channel);
    voucher
}

// The denomination of a token that came over a channel.
fn over(alloc: Global, own: &Denom, channel: &ChannelId) -> Result<Denom, RunError> {
    let port: PortId = Name::parse(alloc, "transfer")?;
    let voucher = own.hop(alloc, &port, channel);
    drop(port);
    Ok(voucher?)
}

// What a user holds of a denomination.
fn held(network: &Network, chain: u8, user: &UserName, denom: &Denom) -> Result<u128, RunError> {
    let account = Account::User(user.clone()?);
    let held = match network.world.ledger(chain) {
        Some(ledger) => ledger.balance(&account, denom),
        None => 0,
    };
    drop(account);
    Ok(held)
}

// Who sends, and what.
fn sent_by(
    network: &Network,
    chain: u8,
    drawn: DrawnTransfer,
) -> Result<(UserName, (Denom, u128)), RunError> {
    let user: UserName = numbered(network.alloc, "user", drawn.user)?;
    let sent = denom(network, chain, &user, drawn);
    made_behind(user, sent)
}

// Who receives it, and the memo.
fn sent_to(alloc: Global, drawn: DrawnTransfer) -> Result<(Receiver, Memo), RunError> {
    let receiver: Receiver = numbered(alloc, "user", drawn.receiver)?;
    made_behind(receiver, memo(alloc, drawn.memo))
}

// A transfer of a random user.
fn transfer(
    network: &Network,
    random: &mut Random,
    end: &LaneEnd,
    traffic: Traffic,
) -> Result<Transfer, RunError> {
    let drawn = draw(network, random, end, traffic);
    let sent = sent_by(network, end.chain, drawn)?;
    let (sent, to) = made_behind(sent, sent_to(network.alloc, drawn))?;
    let ((sent, to), channel) = made_behind((sent, to), end.own_channel())?;
    let (user, (denom, held)) = sent;
    let (receiver, memo) = to;
    Ok(Transfer {
        channel,
        user,
        denom,
        amount: u128::from(drawn.most).min(held),
        receiver,
        memo,
        timeout_height: drawn.timeout_height,
        timeout_time: 0,
    })
}

// Some twenty to some two hundred bytes.
fn payload(alloc: Global, random: &mut Random) -> Result<Bytes, RunError> {
    let size = random.below(200).saturating_add(20);
    let mut payload = Vec::new(alloc);
    for _byte in 0..size {
        payload.push(u8::try_from(random.below(256)).unwrap_or(0))?;
    }
    Ok(Bytes::from_vec(payload))
}

// A note of random bytes.
fn note(network: &Network, random: &mut Random, end: &LaneEnd) -> Result<SendNote, RunError> {
    let payload = payload(network.alloc, random)?;
    let (payload, channel) = made_behind(payload, end.own_channel())?;
    Ok(SendNote {
        channel,
        payload,
        timeout_height: timeout_of(network, random, end, 0),
        timeout_time: 0,
    })
}

/// Sends what a random user sends over an end: tokens or a note.
pub fn send(
    network: &mut Network,
    random: &mut Random,
    end: &LaneEnd,
    traffic: Traffic,
) -> Result<(), RunError> {
    let message = match end.application {
        Application::Note => Message::SendNote(note(network, random, end)?),
        _ => Message::Transfer(transfer(network, random, end, traffic)?),
    };
    network.send(end.chain, message);
    Ok(())
}

/// Sends so many times over random ends.
pub fn send_burst(
    network: &mut Network,
    random: &mut Random,
    ends: &[LaneEnd],
    traffic: Traffic,
    count: u64,
) -> Result<(), RunError> {
    for _send in 0..count {
        if let Some(end) = ends.get(random.place(ends.len())) {
            send(network, random, end, traffic)?;
        }
    }
    Ok(())
}
