// The commands and their options.
use plan_terms::{GoalName, Topic};
use std::alloc::AllocError;
use thiserror::Error;

/// Which goals to plan for.
#[derive(Drop)]
pub struct Goals {
    /// The names in the order of the words. None stands for the default list.
    pub names: Vec<GoalName>,
    /// Hard goals may be absent.
    pub skip_hard_goal_check: bool,
}

/// How many movers and planners work beside those who ask.
#[derive(Clone, Copy, Debug, PartialEq, Eq)]
pub struct Workers {
    /// 0 to 64.
    pub movers: u32,
    /// 0 to 4.
    pub planners: u32,
}

/// A command with its options. A file is the name of a cluster file, and no replica and no leadership
/// of excluded topics moves without need.
#[derive(Drop)]
pub enum Command {
    Plan {
        file: String,
        goals: Goals,
        excluded_topics: Vec<Topic>,
        /// The trace is written in place of the plan.
        trace: bool,
    },
    Check {
        file: String,
        /// The name of the trace's file.
        trace: String,
        goals: Goals,
        excluded_topics: Vec<Topic>,
    },
    Apply {
        file: String,
        goals: Goals,
        excluded_topics: Vec<Topic>,
    },
    Gen {
        /// Below 2^31.
        seed: u32,
        /// 1 to 200.
        brokers: u32,
        /// 0 to 10,000.
        partitions: u32,
        goals: Goals,
        /// The cluster file is written in place of the summary.
        whole: bool,
    },
    Session {
        file: String,
        workers: Workers,
        /// What starts something is reviewed first.
        review: bool,
    },
    Serve {
        file: String,
        workers: Workers,
        /// The address and the port to listen at. Any text: the listener reads it.
        listen: String,
        /// How many links are served, in all or at once: 1 to 64.
        links: u32,
        /// What starts something is reviewed first.
        review: bool,
        /// Links are accepted without end, so many at once, until a request asks for the end.
        forever: bool,
        /// There is a page, at `/`.
        page: bool,
    },
}

/// Why words give no command.
#[derive(Clone, Copy, Debug, PartialEq, Eq, Error)]
pub enum WordsFault {
    /// They mean none.
    #[error("usage error")]
    Usage,
    /// Want of memory.
    #[error("want of memory")]
    Memory,
}

impl From<AllocError> for WordsFault {
    ghost use Rattle.std.specs.Prelude.{◌≡◌};
    ghost use Rattle.command_words.specs.declared.commands.WordsFault.TheVariants as fault;

    ghost from_gives = { λ _ e. e ≡ fault.Memory };

    fn from(_: AllocError) -> Self {
        WordsFault::Memory
    }
}
