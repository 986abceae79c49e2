//! The edge to the outside: a folder of named files and a sink for bytes, in memory and for real.
#![tactic(auto)]

mod answer;
mod disk_file;
mod disk_folder;
mod folder;
mod mem_folder;
mod mem_sink;
mod sink;
mod std_sink;
mod stream;

pub use answer::{Failed, LoadNo};
pub use disk_folder::DiskFolder;
pub use faults::NoMemory;
pub use folder::Folder;
pub use mem_folder::MemFolder;
pub use mem_sink::MemSink;
pub use sink::Sink;
pub use std_sink::StdSink;
