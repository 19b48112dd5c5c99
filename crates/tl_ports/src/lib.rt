//! The outside of the editor: traits for the files that it reads, the files that it writes and the bytes that it puts out.
#![tactic(auto)]

mod clean_store;
mod clean_vault;
mod fault;
mod fault_plan;
mod file_list;
mod file_sink;
mod folder_store;
mod folder_vault;
mod gate;
mod mem_sink;
mod mem_store;
mod mem_vault;
mod out_sink;
mod output;
mod ports;
mod stream;

pub use clean_store::CleanStore;
pub use clean_vault::CleanVault;
pub use fault::{FetchFault, PutFault};
pub use fault_plan::FaultPlan;
pub use file_sink::FileSink;
pub use folder_store::FolderStore;
pub use folder_vault::FolderVault;
pub use gate::{Gate, OpenGate, Point};
pub use mem_sink::MemSink;
pub use mem_store::MemStore;
pub use mem_vault::MemVault;
pub use out_sink::OutSink;
pub use ports::{Sink, Store, Vault};

#[cfg(test)]
mod tests;
