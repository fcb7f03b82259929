//! Proofs as `cosmos.ics23.v1.CommitmentProof`, in canonical protobuf (ICS 23): so a Cosmos chain or a wallet verifies them with its own library. Leaves
//! and inner nodes are those of ICS 23's Tendermint spec.
#![tactic(auto)]

mod reading;
mod writing;

pub use reading::{proof_of_form, spelled_of_form};
pub use writing::form_of;
