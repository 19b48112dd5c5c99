//! Timelines. `Lane` is a timeline seen as a list of cells, one a frame; `ListLane` keeps it as a list of segments.
#![tactic(auto)]

mod change;
mod cut;
mod lane;
mod list_lane;
mod patch;
mod piece;
mod range;
mod replace;
mod reshape;
mod taken;

pub use lane::{ApplyFault, Lane, keeps_sound, recipe_in};
pub use list_lane::ListLane;
pub use patch::Patch;
