//! The plain data of the editor: recipes, segments, edits and the journal, the library of clips as a trait, and a
//! rendered value whose type keeps that it is the render of its recipe.
#![tactic(auto)]

mod clips;
mod edit;
mod fault;
mod journal;
mod law;
mod media;
mod name;
mod recipe;
mod rendered;
mod segment;
mod steps;

pub use clips::Clips;
pub use edit::{Edit, EditRefusal, EditReply};
pub use fault::{Ending, FrameFault, RenderFault};
pub use journal::{Act, Entry, Journal};
pub use law::sound_frames_render;
pub use media::{EncodeFault, Media, Picked};
pub use name::Name;
pub use recipe::{Mix, Recipe, Side};
pub use rendered::Rendered;
pub use segment::{Segment, Segments};
pub use steps::Steps;

#[cfg(test)]
mod tests;
