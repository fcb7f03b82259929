//! The application of port `transfer`.

ghost use Rattle.std.specs.Prelude.{◌≡◌, [], refl, Ok, Err, IsTrue, IfOk, OnErr, IsOkUnless};
ghost use Rattle.std.specs.List.{list_all};
ghost use Rattle.ibc_ids.specs.declared.refusal.Refusal.TheVariants.{NoMemory};
ghost use Rattle.ibc_machine.specs.chain.Genesis.{starting_balances, is_fair};
ghost use Rattle.ibc_machine.specs.ics20.Transfers.{opens_for_transfers, closes_for_transfers};
ghost use Rattle.ibc_bank.specs.Moves.{BankState, after_moves};
ghost use Rattle.ibc_transfer.specs.BankCallbacks.{bank_receives, bank_acknowledged, bank_times_out};
ghost use Rattle.ibc_transfer.specs.Laws.{transfers_open_or_refuse, transfers_write_sized_acks, transfers_time_out_or_poor, transfers_are_acknowledged_or_poor};
ghost use Rattle.ibc_transfer.specs.TokenArrival.{TakesMoves};

use crate::acks::{Failure, success};
use crate::arriving::read_arrival;
use crate::names::is_transfer_version;
use crate::returning::{acknowledged, refunds};
use ibc_bank::{Bank, Move};
use ibc_ids::{Bytes, Refusal, Version};
use ibc_machine::ChainStart;
use ibc_records::{App, Pays};
use ibc_wire::{Order, Packet};
use std::alloc::{AllocError, Global};
use std::marker::Model;

/// The tokens of a chain, as the application of port `transfer` keeps them (ICS 20): contracts see the state of their
/// bank.
#[derive(Drop)]
pub struct Transfers {
    bank: Bank,
    alloc: Global,
}

impl Model for Transfers {
    ghost Value = { BankState };

    ghost view = { λ app. app.bank };
}

impl Transfers {
    /// The tokens of a chain in the beginning, whose holdings are fair: each names a user and a base denomination once,
    /// and all amounts of a denomination fit 128 bits together. Refused where a growth is.
    pub fn from_start(alloc: Global, start: &ChainStart) -> Result<Transfers, AllocError>
        requires { IsTrue (list_all (is_fair start.now.balances.items) start.now.balances.items) }
        ensures balances { IfOk result (λ app. app.balances ≡ starting_balances start.now.balances.items) }
        ensures burnt { IfOk result (λ app. app.burnt ≡ []) }
    {
        Ok(Transfers {
            bank: Bank::from_start(alloc, start)?,
            alloc,
        })
    }

    /// The bank.
    pub fn bank(&self) -> &Bank
        ensures { result.now ≡ self.now }
    {
        &self.bank
    }

    // Makes the moves of tokens that came, or none, and answers the acknowledgement. Refused: `NoMemory`.
    fn take(&mut self, moves: &[Move]) -> Result<Bytes, Refusal>
        ensures ok { IfOk result (λ ack. TakesMoves self.old moves.now ack self.new) }
        ensures err { IsOkUnless result NoMemory }
        ensures unchanged { OnErr result (self.new ≡ self.old) }
    {
        let taken = success(self.alloc)?;
        match self.bank.apply_all(moves) {
            Ok(()) => Ok(taken),
            Err(Refusal::NoMemory) => Err(Refusal::NoMemory),
            Err(_) => Ok(Failure::OverLimit.ack(self.alloc)?),
        }
    }
}

impl App for Transfers {
    ghost opens = { opens_for_transfers };

    ghost closes = { closes_for_transfers };

    ghost receives = { bank_receives };

    ghost is_acknowledged = { bank_acknowledged };

    ghost times_out = { bank_times_out };

    #[tactic(auto, unfolding(ibc_machine::specs::chain::Checks::and_then))]
    fn on_open(&self, order: Order, version: &Version) -> Result<(), Refusal> {
        if order != Order::Unordered {
            return Err(Refusal::WrongOrder);
        }
        if !is_transfer_version(version) {
            return Err(Refusal::WrongVersion);
        }
        Ok(())
    }

    fn on_close(&self) -> Result<(), Refusal> {
        Err(Refusal::CloseRefused)
    }

    fn on_recv(&mut self, version: &Version, packet: &Packet) -> Result<Bytes, Refusal> {
        match read_arrival(self.alloc, version, packet)? {
            Ok(moves) => self.take(moves.as_slice()),
            Err(failure) => Ok(failure.ack(self.alloc)?),
        }
    }

    #[tactic(auto, using(crate::proofs::Settling::acknowledged_by_moves))]
    fn on_ack(&mut self, version: &Version, packet: &Packet, ack: &[u8]) -> Result<(), Refusal> {
        let moves = acknowledged(self.alloc, version, packet, ack)?;
        self.bank.apply_all(moves.as_slice())
    }

    #[tactic(auto, using(crate::proofs::Settling::timed_out_by_moves))]
    fn on_timeout(&mut self, version: &Version, packet: &Packet) -> Result<(), Refusal> {
        let moves = refunds(self.alloc, version, packet)?;
        self.bank.apply_all(moves.as_slice())
    }

    ghost opens_or_refuses = { transfers_open_or_refuse };

    ghost closes_or_refuses = { refl };

    ghost writes_sized_acks = { transfers_write_sized_acks };

    ghost is_acknowledged_or_poor = { transfers_are_acknowledged_or_poor };

    ghost times_out_or_poor = { transfers_time_out_or_poor };
}

impl Pays<Vec<Move>> for Transfers {
    ghost pays = { λ bank moves. after_moves moves.items bank };

    fn pay(&mut self, bill: &Vec<Move>) -> Result<(), Refusal> {
        self.bank.apply_all(bill.as_slice())
    }
}
