//! Pictures of runs.
#![tactic(auto)]

mod canvas;
mod escaped;
mod html;
mod lanes;
mod marks;
mod mermaid;
mod packets;
mod style;
mod svg;
mod words;

pub use lanes::{lane_x, width_of};
pub use svg::{PictureForm, draw};
