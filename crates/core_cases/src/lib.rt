//! What the core reads: the cluster file that it is opened with, the present cluster with its
//! loads, what a request makes of that, whether a plan is for it, and what is shown.
#![tactic(auto)]

mod asked;
mod carried;
mod file;
mod index;
mod loads;
mod losses;
mod moments;
mod same;
mod samples;
mod shows;

pub use asked::{case_of, changes_factor, first_unknown, goals_of, is_dry};
pub use file::OpenFile;
pub use loads::{loaded, loaded_case, valid_parts, windows_of};
pub use losses::lost_since;
pub use moments::present;
pub use same::{failure_is_for, plan_is_for};
pub use samples::sample;
pub use shows::{cluster_shown, load_shown, state_shown, tasks_shown};
