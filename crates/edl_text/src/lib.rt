//! Edit lists of the form CMX 3600: a text is read into its title and its video events, and written again.
#![tactic(auto)]

mod assembly;
mod event;
mod fault;
mod label;
mod law;
mod line;
mod names;
mod reading;
mod row;
mod writing;

pub use event::{Edl, Event, Events};
pub use fault::{EdlFault, EdlWhy};
pub use label::Text;
pub use law::lists_read_back;
pub use reading::read_edl;
pub use writing::write_edl;
