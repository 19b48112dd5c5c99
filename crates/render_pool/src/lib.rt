//! What workers and the exporter do beside a script: turns of work, and exports that are carried out, each as one caller of an editing
//! core, over any desk.
//!
//! [`work_turn`] claims a job, renders it and files it; [`work_until_stopped`] goes on with that until the session is stopped.
//! [`export_turn`] takes an export, carries it out and ends it; [`export_until_stopped`] goes on with that likewise. Each calls the gate
//! at its points. `work` has the turns of work, `exporting` the exports, `end` how a turn ended.
#![tactic(auto)]

mod end;
mod exporting;
#[cfg(test)]
mod tests;
mod work;

pub use end::{ExportEnd, WorkEnd};
pub use exporting::{export_turn, export_until_stopped};
pub use work::{work_turn, work_until_stopped};
