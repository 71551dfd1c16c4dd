// Why a sample is left out.
use thiserror::Error;

/// Why a sample is refused. The first cause that holds is told.
#[derive(Clone, Copy, Debug, PartialEq, Eq, Error)]
pub enum SampleFault {
    /// The sample's window is no longer kept. It carries the oldest window that is, as a number of
    /// windows from time 0.
    #[error("the oldest window that is kept is {0}")]
    TooOld(u64),
    /// The partition has 65,536 samples in the window already.
    #[error("the window is full")]
    WindowFull,
}
