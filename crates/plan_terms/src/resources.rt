//! The four resources, by their places among four numbers.

/// The processors, in percent.
pub const CPU: usize = 0;

/// What comes in over the network, in KB/s.
pub const NW_IN: usize = 1;

/// What goes out over the network to clients, in KB/s.
pub const NW_OUT: usize = 2;

/// Disk space, in MB.
pub const DISK: usize = 3;
