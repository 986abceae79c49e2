//! Command traces: how events are spelled, what a recorder keeps of them, and what a replay leaves.
#![tactic(auto)]

ghost use Rattle.trace_model.specs.Laws.{EventsAreLegal, FilesAreExact, FittingAreFew};
ghost use Rattle.trace_model.specs.Laws.{KeepsWhatFits, ReplayIsScript, ScriptIsTrace};
ghost use Rattle.trace_model.specs.Laws.{TableIsWritten};

use file_fields::FileFault;

/// What a field of a trace file breaks. A file that ends inside a field is `Short`. An event whose
/// eight bytes name no event is `Event`, and one whose address may not stand there is `Legal`.
#[derive(Clone, Copy, Debug, PartialEq, Eq)]
pub enum TraceKind {
    Short,
    Magic,
    Version,
    Geometry,
    Object,
    Overlap,
    Event,
    Legal,
    Rest,
}

/// The first field that breaks a rule, by the place of its first byte. `Short` and `Rest` are at
/// the end: that of the file, and that of the trace.
pub type TraceFault = FileFault<TraceKind>;

/// Shows that bytes are accepted exactly where they are the spelling of a trace, which they are of
/// one alone.
pub fn traces_are_exact()
    ensures { FilesAreExact }
{}

/// What a recorder keeps in its room: all events while they fit, and how many bytes all would take.
pub fn recorders_keep_what_fits()
    ensures keeps { KeepsWhatFits }
    ensures few { FittingAreFew }
{}

/// A script's events replayed on its image leave what the script leaves, under every order in
/// force, and its trace is one that a file may hold.
pub fn traces_replay()
    ensures events { EventsAreLegal }
    ensures tables { TableIsWritten }
    ensures replays { ReplayIsScript }
    ensures traces { ScriptIsTrace }
{}
