//! Who pays for packets as they are sent.

ghost use Rattle.std.specs.Prelude.{◌≡◌, Ok, OnOk, OnErr};
ghost use Rattle.ibc_machine.specs.chain.Checks.{Checked};
ghost use Rattle.ibc_records.specs.WhyRefused.{IsRefusedAs};

use ibc_ids::Refusal;

/// Who pays for a packet as it is sent (ICS 20, "sendFungibleTokens"). A refusal leaves the payer.
pub trait Pays<Bill> {
    // What is kept after a bill was paid.
    ghost pays: { Self → Bill → Checked Self };

    /// Pays a bill. What the payer refuses; `NoMemory` where a growth is refused.
    fn pay(&mut self, bill: &Bill) -> Result<(), Refusal>
        ensures ok { OnOk result (pays self.old bill.now ≡ Ok self.new) }
        ensures err { IsRefusedAs (pays self.old bill.now) result }
        ensures unchanged { OnErr result (self.new ≡ self.old) };
}

/// The payer of packets that cost nothing.
#[derive(Clone, Copy, Debug, Drop)]
pub struct NoPayer;

impl Pays<()> for NoPayer {
    ghost pays = { λ payer bill. Ok payer };

    fn pay(&mut self, _bill: &()) -> Result<(), Refusal> {
        Ok(())
    }
}
