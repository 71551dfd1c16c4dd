// How a pump ends.

/// How a pump ends: rounds of work that one client asks for.
#[derive(Clone, Copy, Debug, PartialEq, Eq)]
pub enum PumpEnd {
    /// So many rounds were done. Whether one behind them found neither a job nor work, which isn't
    /// counted.
    Done { done: u32, idle: bool },
    /// A call of the admin failed. The number, at least 1, is that of the failed calls so far.
    AdminFault(u64),
    /// Want of memory.
    Memory,
}
