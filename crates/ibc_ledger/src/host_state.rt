//! A chain of so many: its records, and what its applications keep.

use crate::applications::Applications;
use ibc_records::Records;
use std::alloc::Global;

/// A chain by its number among so many, with its records and with what its applications keep (ICS 24, "Host
/// environment").
#[derive(Drop)]
pub struct HostState {
    pub alloc: Global,
    pub number: u8,
    pub chains: u8,
    pub records: Records,
    pub applications: Applications,
}
