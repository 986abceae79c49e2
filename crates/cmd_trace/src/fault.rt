//! Why no trace was read.

ghost use Rattle.std.specs.Prelude.{◌≡◌};
ghost use Rattle.trace_model.specs.Reading.{trace_kind as kind_of, as_trace_fault};

use faults::NoMemory;
use object_alloc::{ImageFault, ImageKind};
use trace_model::{TraceFault, TraceKind};

/// Why no trace was read.
#[derive(Clone, Copy, PartialEq, Eq)]
pub enum TraceNo {
    Fault(TraceFault),
    NoMemory,
}

impl From<TraceFault> for TraceNo {
    ghost use Rattle.std.specs.Prelude.{◌≡◌};
    ghost use Rattle.cmd_trace.specs.declared.fault.TraceNo.TheVariants.{Fault};

    ghost from_gives = { λ fault e. e ≡ Fault fault };

    fn from(fault: TraceFault) -> TraceNo {
        TraceNo::Fault(fault)
    }
}

impl From<NoMemory> for TraceNo {
    ghost use Rattle.std.specs.Prelude.{◌≡◌};
    ghost use Rattle.cmd_trace.specs.declared.fault.TraceNo.TheVariants.{NoMemory as Want};

    ghost from_gives = { λ _ e. e ≡ Want };

    fn from(_no: NoMemory) -> TraceNo {
        TraceNo::NoMemory
    }
}

/// What a field of the geometry or of the table breaks in a trace file.
fn trace_kind(kind: ImageKind) -> TraceKind
    ensures { result ≡ kind_of kind }
{
    match kind {
        ImageKind::Short => TraceKind::Short,
        ImageKind::Magic => TraceKind::Magic,
        ImageKind::Version => TraceKind::Version,
        ImageKind::Geometry => TraceKind::Geometry,
        ImageKind::Object => TraceKind::Object,
        ImageKind::Overlap => TraceKind::Overlap,
        ImageKind::Rest => TraceKind::Rest,
    }
}

/// The fault of such a field.
pub(crate) fn trace_fault(fault: ImageFault) -> TraceFault
    ensures { result ≡ as_trace_fault fault }
{
    TraceFault {
        at: fault.at,
        kind: trace_kind(fault.kind),
    }
}
