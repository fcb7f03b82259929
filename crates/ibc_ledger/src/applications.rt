//! What the applications of a chain keep.

ghost use Rattle.std.specs.Prelude.{◌≡◌, IfOk, IsTrue, is_some};
ghost use Rattle.std.specs.List.{list_all};
ghost use Rattle.ibc_ids.specs.Texts.{same_text};
ghost use Rattle.ibc_machine.specs.chain.Genesis.{is_fair};
ghost use Rattle.ibc_machine.specs.chain.Notes.{note_port};
ghost use Rattle.ibc_ledger.specs.ReplayedState.{starting_apps};

use ibc_ids::PortId;
use ibc_machine::ChainStart;
use ibc_note::{Notes, is_note_port};
use ibc_transfer::Transfers;
use std::alloc::{AllocError, Global};

/// What the applications of a chain keep (ICS 24, "Private store").
#[derive(Drop)]
pub struct Applications {
    pub transfers: Transfers,
    pub notes: Notes,
}

impl Applications {
    /// What the applications keep in the beginning of a chain, whose holdings are fair: each names a user and a base
    /// denomination once, and all amounts of a denomination fit 128 bits together.
    pub fn new(alloc: Global, start: &ChainStart) -> Result<Applications, AllocError>
        requires { IsTrue (list_all (is_fair start.now.balances.items) start.now.balances.items) }
        ensures { IfOk result (λ applications. applications ≡ starting_apps start.now.balances.items) }
    {
        Ok(Applications {
            transfers: Transfers::from_start(alloc, start)?,
            notes: Notes::new(alloc),
        })
    }

    /// The notes, where the port is theirs.
    pub fn notes_on(&self, port: &PortId) -> Option<&Notes>
        ensures { is_some result ≡ same_text port.now note_port }
    {
        if is_note_port(port) {
            Some(&self.notes)
        } else {
            None
        }
    }
}
