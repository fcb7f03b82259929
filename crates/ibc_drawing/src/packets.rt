//! The packets of a picture.

ghost use Rattle.std.specs.Prelude.{◌≡◌, ◌%◌, ◌*◌, ◌++◌, ◌+◌, ◌<◌, ◌∷◌, [], OnOk};
ghost use Rattle.ibc_drawing.specs.Packets.{sent_packet};

use ibc_explain::Explanation;
use std::alloc::AllocError;

/// So many colours tell packets apart.
pub const COLOURS: usize = 6;

/// A packet: the chain, the port and the channel that it was sent from, and its sequence there.
#[derive(Clone, Copy, PartialEq, Eq)]
pub struct PacketKey<'e> {
    pub chain: u8,
    pub port: &'e str,
    pub channel: &'e str,
    pub sequence: u64,
}

/// A packet of a picture: how far down it was sent, and where and how far down it was received.
#[derive(Clone, Copy)]
pub struct DrawnPacket<'e> {
    pub key: PacketKey<'e>,
    pub sent: usize,
    pub received: Option<(u8, usize)>,
}

/// The packets that were met so far.
#[derive(Drop)]
pub struct DrawnPackets<'e> {
    pub met: Vec<DrawnPacket<'e>>,
}

impl<'e> PacketKey<'e> {
    /// The packet that an entry is about.
    pub fn of(told: &Explanation<'e>) -> Option<PacketKey<'e>> {
        let chain = told.sender?;
        let packet = told.facts.packet?;
        Some(PacketKey {
            chain,
            port: packet.port,
            channel: packet.channel,
            sequence: packet.sequence,
        })
    }

    /// The number of the packet's colour.
    pub fn colour(&self) -> usize
        ensures one { result < COLOURS }
        ensures value { result ≡ (self.now.chain * 3 + self.now.sequence % COLOURS) % COLOURS }
    {
        let first = usize::from(self.chain) * 3;
        let behind = (self.sequence % COLOURS as u64) as usize;
        (first + behind) % COLOURS
    }
}

impl<'e> DrawnPackets<'e> {
    /// A packet, as it is known.
    pub fn find(&self, key: PacketKey<'e>) -> Option<DrawnPacket<'e>> {
        for packet in self.met.iter().rev() {
            if packet.key == key {
                return Some(*packet);
            }
        }
        None
    }

    /// A packet is sent.
    pub fn send(&mut self, key: PacketKey<'e>, y: usize) -> Result<(), AllocError>
        ensures { OnOk result (self.new.met.items ≡ self.old.met.items ++ sent_packet key.entry y ∷ []) }
    {
        self.met.push(DrawnPacket {
            key,
            sent: y,
            received: None,
        })?;
        Ok(())
    }

    /// A packet is received by a chain.
    pub fn receive(&mut self, key: PacketKey<'e>, chain: u8, y: usize) {
        let at = self.place(key);
        if at < self.met.len() {
            self.met[at].received = Some((chain, y));
        }
    }

    // How many packets were met before this one, all where it wasn't met.
    fn place(&self, key: PacketKey<'e>) -> usize {
        let mut at = self.met.len();
        for packet in self.met.iter().rev() {
            at = at.saturating_sub(1);
            if packet.key == key {
                return at;
            }
        }
        self.met.len()
    }
}
