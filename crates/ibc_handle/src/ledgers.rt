//! Ledgers of one world.

ghost use Rattle.std.specs.Prelude.{◌≡◌, ◌⊎◌, ◌↔◌, Err, false, length, IfOk, IfErr, OnOk, OnErr, IsOkUnless};
ghost use Rattle.ibc_ids.specs.declared.refusal.Refusal.TheVariants.{BadMessage, NoMemory};
ghost use Rattle.ibc_machine.specs.chain.Genesis.{genesis_state, is_allowed};
ghost use Rattle.ibc_refinement.specs.World.{AreNew};
ghost use Rattle.ibc_world_core.specs.WorldModel.{ledgers_alone};
ghost use Rattle.ibc_world_core.specs.WorldAudits.{IsAudit, is_whole};
ghost use Rattle.ibc_world_core.specs.EveryAudit.{AreLawful};
ghost use Rattle.ibc_handle.specs.LedgersModel.{AreStill, Joins, IsFirstTaken, with_ledger};
ghost use Rattle.ibc_handle.specs.Joining.{JoinsIfSameNumber, JoinsMember, IsHandedBack};

use crate::WorldLedger;
use ibc_ids::Refusal;
use ibc_ledger::Ledger;
use ibc_machine::Genesis;
use ibc_world_core::{Audit, World, lawful_audit_in_place};
use std::alloc::Global;
use std::marker::Model;

/// Why a ledger isn't moved to others.
#[derive(Clone, Copy, Debug, PartialEq, Eq, Drop)]
pub enum NotJoined {
    /// There is no value.
    Empty,
    /// The value is no ledger.
    OtherKind,
    /// The ledger is of a world with another number.
    OtherWorld,
    /// A growth was refused.
    NoMemory,
}

/// Ledgers of one world, under the number that the world's owner gave it. Contracts see them as a list.
#[derive(Drop)]
pub struct WorldLedgers {
    number: u64,
    ledgers: Vec<Ledger>,
}

impl Model for WorldLedgers {
    ghost use Rattle.ibc_world_core.specs.WorldAudits.{AreOfOneWorld};
    ghost use Rattle.ibc_handle.specs.LedgersModel.{LedgersModel};

    ghost Value = { LedgersModel };

    ghost view = { λ all. record { number = all.number; ledgers = all.ledgers.items } };

    ghost invariant = { λ all. AreOfOneWorld all.ledgers.items };
}

impl WorldLedgers {
    /// The ledgers of a genesis in the beginning, by the numbers of their chains. Refused: `BadMessage` exactly where the
    /// genesis isn't allowed; `NoMemory`.
    pub fn begin(alloc: Global, genesis: &Genesis, number: u64) -> Result<WorldLedgers, Refusal>
        ensures number { IfOk result (λ all. all.number ≡ number) }
        ensures new { IfOk result (λ all. AreNew (genesis_state genesis.now) (ledgers_alone all.ledgers)) }
        ensures bad { (result ≡ Err BadMessage) ↔ (is_allowed (genesis_state genesis.now) ≡ false) }
        ensures err { IfErr result (λ refusal. (refusal ≡ BadMessage) ⊎ (refusal ≡ NoMemory)) }
    {
        match World::new(alloc, genesis) {
            Ok(world) => Ok(WorldLedgers::of_world(world, number)),
            Err(refusal) => Err(refusal),
        }
    }

    /// The ledgers of a world, by the numbers of their chains, under the number that its owner gave it.
    pub fn of_world(world: World, number: u64) -> WorldLedgers
        ensures number { result.number ≡ number }
        ensures ledgers { ledgers_alone result.ledgers ≡ world.ledgers }
    {
        WorldLedgers {
            number,
            ledgers: world.into_ledgers(),
        }
    }

    /// The number of the world.
    pub fn number(&self) -> u64
        ensures { result ≡ self.now.number }
    {
        self.number
    }

    /// How many ledgers there are.
    pub fn len(&self) -> usize
        ensures { result ≡ length self.now.ledgers }
    {
        self.ledgers.len()
    }

    /// Takes the first ledger out, or none where there is none.
    pub fn take_first(&mut self) -> Option<Ledger>
        ensures { IsFirstTaken self.old result self.new }
    {
        if self.ledgers.is_empty() {
            return None;
        }
        Some(self.ledgers.remove(0))
    }

    /// Adds a ledger, which is of the same world. Where a growth is refused it is handed back, and nothing has changed.
    pub fn add(&mut self, ledger: Ledger) -> Result<(), Ledger>
        requires { Joins ledger self.old.ledgers }
        ensures ok { OnOk result (self.new ≡ with_ledger self.old ledger) }
        ensures err { OnErr result (self.new ≡ self.old) }
        ensures back { IsOkUnless result ledger }
    {
        let Ok(()) = self.ledgers.reserve(1) else {
            return Err(ledger);
        };
        self.ledgers.push_reserved(ledger);
        Ok(())
    }

    /// Adds the ledger, where it is of the world of this number. Else it is handed back with the reason, `OtherWorld` or
    /// `NoMemory`, and nothing has changed.
    pub fn join(&mut self, member: WorldLedger) -> Result<(), (NotJoined, WorldLedger)>
        requires { JoinsIfSameNumber self.old member }
        ensures ok { OnOk result (JoinsMember self.old member self.new) }
        ensures err { OnErr result (self.new ≡ self.old) }
        ensures back { IfErr result (λ e. IsHandedBack self.old member e) }
    {
        if member.number != self.number {
            return Err((NotJoined::OtherWorld, member));
        }
        let WorldLedger { number, ledger } = member;
        match self.add(ledger) {
            Ok(()) => Ok(()),
            Err(ledger) => Err((NotJoined::NoMemory, WorldLedger { number, ledger })),
        }
    }

    /// What the ledgers hold, and that what they did together is lawful, where no two different texts that they hashed share a
    /// digest. Refused: `BadMessage` exactly where a chain of their genesis is missing or twice, or there are none; `NoMemory`.
    /// The ledgers stay in every case, and have at most seen more.
    pub fn audit(&mut self, alloc: Global) -> Result<Audit, Refusal>
        ensures stay { AreStill self.old self.new }
        ensures lawful { IfOk result (AreLawful self.old.ledgers) }
        ensures audited { IfOk result (IsAudit self.old.ledgers) }
        ensures bad { (result ≡ Err BadMessage) ↔ (is_whole self.old.ledgers ≡ false) }
        ensures err { IfErr result (λ refusal. (refusal ≡ BadMessage) ⊎ (refusal ≡ NoMemory)) }
    {
        lawful_audit_in_place(alloc, self.ledgers.as_mut_slice())
    }
}
