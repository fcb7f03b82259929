//! Calls of single libraries that packets go through, each part by itself: the store of a chain's paths, and the data of tokens.

mod packet_data;
mod paths;

use crate::random::Random;
use crate::run_error::RunError;
use crate::tally::Tally;
use std::alloc::Global;

/// A part.
#[derive(Clone, Copy)]
pub enum Part {
    /// A block sets new paths between many others, in any order.
    NewPaths,
    /// A block sets new paths between as many others, in their order.
    PathsBetween,
    /// A block sets every second value anew, in the order of the paths.
    ChangedValues,
    /// Each block sets some new paths in front of many others.
    PathsInFront,
    /// The data of packets of tokens is written and read, and some bytes that are no data.
    PacketData,
}

impl Part {
    /// The part of a name, or none.
    pub fn of(name: &str) -> Option<Part> {
        match name {
            "new" => Some(Part::NewPaths),
            "between" => Some(Part::PathsBetween),
            "changed" => Some(Part::ChangedValues),
            "front" => Some(Part::PathsInFront),
            "data" => Some(Part::PacketData),
            _ => None,
        }
    }

    /// Its name, behind that of the workload.
    pub fn name(self) -> &'static str {
        match self {
            Part::NewPaths => "parts new",
            Part::PathsBetween => "parts between",
            Part::ChangedValues => "parts changed",
            Part::PathsInFront => "parts front",
            Part::PacketData => "parts data",
        }
    }

    /// Runs the part at a size, and tells what the results come to.
    pub fn run(self, alloc: Global, size: u64, random: &mut Random) -> Result<Tally, RunError> {
        match self {
            Part::NewPaths => paths::new_paths(alloc, size, random),
            Part::PathsBetween => paths::paths_between(alloc, size, random),
            Part::ChangedValues => paths::changed_values(alloc, size, random),
            Part::PathsInFront => paths::paths_in_front(alloc, size, random),
            Part::PacketData => packet_data::run(alloc, size, random),
        }
    }
}
