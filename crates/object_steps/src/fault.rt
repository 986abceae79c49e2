//! Why an instruction was not done to its end.

/// Which call failed.
#[derive(Clone, Copy, PartialEq, Eq)]
pub enum StepFault {
    ChipFault,
    WriteFault,
}
