//! Edits that can be undone and done again. It keeps patches of what changed, and is seen as a history of whole timelines.
#![tactic(auto)]

mod editor;

pub use editor::{Editor, keeps_sound_history};
