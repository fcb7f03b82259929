//! What the chains of one process share.
use std::marker::Brand;

/// One table and one genesis, and the books of their chains. A program picks them at a call, once they are made.
pub trait WorldBrand {
    ghost use Rattle.std.specs.Prelude.{ℕ};
    ghost use Rattle.logbook.specs.Pages.{Book};
    ghost use Rattle.ibc_machine.specs.chain.Genesis.{GenesisState};
    ghost use Rattle.ibc_root_table.specs.Passes.{TableName};

    ghost table: { TableName };

    ghost genesis: { GenesisState };
    /// The book of the chain of a number.
    ghost book: { ℕ → Book };
}

impl WorldBrand for Brand {
    ghost use Rattle.ibc_ledger_lock.specs.Books.{no_book};
    ghost use Rattle.ibc_ledger_lock.specs.ReceiptsAndReadings.{no_table, no_genesis};

    ghost table = { no_table };

    ghost genesis = { no_genesis };

    ghost book = { λ _. no_book };
}
