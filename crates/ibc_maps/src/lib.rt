//! Maps in the order of their keys: `SortedMap`, in which room can be made beforehand, and `SharedMap`, whose copies share what is the same in both.
#![tactic(auto)]

mod chunk;
mod pairs;
mod row;
mod shared_map;
mod sorted_map;

pub use pairs::Pairs;
pub use shared_map::SharedMap;
pub use sorted_map::SortedMap;
