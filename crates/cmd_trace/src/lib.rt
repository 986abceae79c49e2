//! A recorder of a chip's events, and trace files, which it writes and which are replayed.
#![tactic(auto)]

mod events;
mod fault;
mod head;
mod notes;
mod recorder;
mod replay;
mod sizes;
mod view;

pub use fault::TraceNo;
pub use faults::NoMemory;
pub use recorder::{Recorder, Room};
pub use replay::replay_events;
pub use sizes::{EVENT_BYTES, EVENTS_BYTES_MAX, HEAD_BYTES_MAX, TRACE_BYTES_MAX};
pub use trace_model::{TraceFault, TraceKind};
pub use view::TraceView;
