//! How a run ends.

/// Why a run ended.
#[derive(Clone, Copy, Debug, PartialEq, Eq)]
pub enum MonitorWhy {
    /// Every computer was asked, and all lines were written.
    Done,
    /// A reading of the clock failed.
    ClockFault,
    /// A draw of a word failed.
    EntropyFault,
    /// A write failed.
    WriteFault,
}
