//! What a seat at the table knows, and the rule that each step keeps.
use crate::shape::Shape;
use atomic_table::{Seat, Table, TableRule};
use ibc_ids::Publication;
use std::alloc::Global;
use std::collections::LinkedList;

/// What a seat knows. No value of it is made.
pub struct TableKnowledge {
    /// The table's shape, or one of no chains where the seat is spent.
    pub shape: Shape,
    /// The seat alone writes for the chains from the first of these numbers up to below the second.
    pub first_own: u64,
    pub end_own: u64,
    /// The publications of all chains, as far as the seat has seen them.
    pub seen: LinkedList<Publication>,
    /// What another seat told it.
    pub heard: LinkedList<Publication>,
    /// The words of the first own chain's next row that are stored.
    pub draft: LinkedList<u64>,
    /// The greatest floor of each chain that it knows.
    pub floors: LinkedList<u64>,
}

/// There is one list of publications.
pub struct OneList;

impl TableRule<(), TableKnowledge, Shape> for OneList {
    ghost use Rattle.ibc_root_table.specs.Rule.{IsTableState, writer_of_all};

    ghost holds = { IsTableState };

    ghost first = { writer_of_all };
}

pub type PublicationTable = Table<(), TableKnowledge, Shape, OneList, Global>;

pub type TableSeat = Seat<(), TableKnowledge>;
