//! The cluster as the service changes it: where lists are written and replicas are copied, as
//! traits, with implementations over memory.
#![tactic(auto)]

mod admin;
mod calls;
mod copier;
mod failing;
mod held;
mod memory;

pub use admin::{Admin, InstallFault};
pub use calls::FailingCalls;
pub use copier::{ChunkCopy, Copier, CopyFault, Receipt, copy_chunk};
pub use failing::{FailingAdmin, FailingCopier};
pub use memory::{MemoryCluster, MemoryCopier};
