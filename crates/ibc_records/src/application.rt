//! The application of a port.

ghost use Rattle.std.specs.Prelude.{◌≡◌, ◌⊎◌, ⊤, Ok, IsTrue, IfOk, IfErr, OnOk, OnErr, IsOkUnless};
ghost use Rattle.ibc_ids.specs.Texts.{Text};
ghost use Rattle.ibc_ids.specs.declared.refusal.Refusal.TheVariants.{NoMemory, WrongOrder, WrongVersion, Poor, CloseRefused};
ghost use Rattle.ibc_wire.specs.declared.packet.Packet.{Packet};
ghost use Rattle.ibc_wire.specs.declared.records.Order.{Order};
ghost use Rattle.ibc_machine.specs.chain.Checks.{Checked};
ghost use Rattle.ibc_machine.specs.ics04.Packets.{has_size};
ghost use Rattle.ibc_records.specs.WhyRefused.{IsRefusedAs};

use ibc_ids::{Bytes, Refusal, Version};
use ibc_wire::{Order, Packet};

/// What channels and packets ask of the application of a port (ICS 20, "Channel lifecycle management" and "Packet relay"). A refusal leaves
/// the application.
pub trait App {
    // What is answered to the opening of a channel of the order and the version.
    ghost opens: { Order → Text → Checked ⊤ };

    // What is answered to the closing of a channel.
    ghost closes: { Checked ⊤ };

    // The acknowledgement of a packet that came over a channel of the version, and what is kept after it.
    ghost receives: { Self → Text → Packet → Text × Self };

    // What is kept after the acknowledgement of a packet that was sent over a channel of the version.
    ghost is_acknowledged: { Self → Text → Packet → Text → Checked Self };

    // What is kept after the timeout of a packet that was sent over a channel of the version.
    ghost times_out: { Self → Text → Packet → Checked Self };

    /// A channel may be opened with this order and this version (ICS 20, "onChanOpenInit" and "onChanOpenTry").
    /// `WrongOrder` or `WrongVersion` where the application doesn't take them.
    fn on_open(&self, order: Order, version: &Version) -> Result<(), Refusal>
        ensures { result ≡ opens order version.now };

    /// A channel may be closed from this side (ICS 20, "onChanCloseInit"). `CloseRefused` where the application doesn't
    /// let its channels be closed.
    fn on_close(&self) -> Result<(), Refusal>
        ensures { result ≡ closes };

    /// Takes a packet that came over a channel of the version, and answers its acknowledgement, 1 to 1,024 bytes (ICS 20,
    /// "onRecvPacket"). `NoMemory` where a growth is refused.
    fn on_recv(&mut self, version: &Version, packet: &Packet) -> Result<Bytes, Refusal>
        ensures ok { IfOk result (λ ack. (ack, self.new) ≡ receives self.old version.now packet.now) }
        ensures err { IsOkUnless result NoMemory }
        ensures unchanged { OnErr result (self.new ≡ self.old) };

    /// Learns the acknowledgement of a packet that was sent over a channel of the version (ICS 20,
    /// "onAcknowledgePacket"). `Poor` where the packet would be refunded out of an account that holds too little;
    /// `NoMemory` where a growth is refused.
    fn on_ack(&mut self, version: &Version, packet: &Packet, ack: &[u8]) -> Result<(), Refusal>
        ensures ok { OnOk result (is_acknowledged self.old version.now packet.now ack.now ≡ Ok self.new) }
        ensures err { IsRefusedAs (is_acknowledged self.old version.now packet.now ack.now) result }
        ensures unchanged { OnErr result (self.new ≡ self.old) };

    /// Learns that a packet that was sent over a channel of the version won't be received (ICS 20, "onTimeoutPacket").
    /// `Poor` where the packet would be refunded out of an account that holds too little; `NoMemory` where a growth is
    /// refused.
    fn on_timeout(&mut self, version: &Version, packet: &Packet) -> Result<(), Refusal>
        ensures ok { OnOk result (times_out self.old version.now packet.now ≡ Ok self.new) }
        ensures err { IsRefusedAs (times_out self.old version.now packet.now) result }
        ensures unchanged { OnErr result (self.new ≡ self.old) };

    // An opening is refused for the order or the version alone.
    ghost opens_or_refuses: { (order : Order) (version : Text) → IfErr (opens order version) (λ refusal. (refusal ≡ WrongOrder) ⊎ (refusal ≡ WrongVersion)) };

    // A closing is refused as such alone.
    ghost closes_or_refuses: { IsOkUnless closes CloseRefused };

    // Each acknowledgement has 1 to 1,024 bytes.
    ghost writes_sized_acks: { (app : Self) (version : Text) (packet : Packet) → IsTrue (has_size (receives app version packet).0) };

    // An acknowledgement is refused for too little on an account alone.
    ghost is_acknowledged_or_poor: { (app : Self) (version : Text) (packet : Packet) (ack : Text) → IfErr (is_acknowledged app version packet ack) (λ refusal. refusal ≡ Poor) };

    // A timeout is refused for too little on an account alone.
    ghost times_out_or_poor: { (app : Self) (version : Text) (packet : Packet) → IfErr (times_out app version packet) (λ refusal. refusal ≡ Poor) };
}
