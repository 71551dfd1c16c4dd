// What the words ask of a run that waits for nobody.
ghost use Rattle.std.specs.Prelude.{◌≡◌, None, Some, map, string_bytes, IfErr, IfOk, IsSome};
ghost use Rattle.command_words.specs.Meaning.{goals_view};
ghost use Rattle.core_terms.specs.Asked.{goals_fault};
ghost use Rattle.quiet_commands.specs.Commands.{asked, command, rebalance};

use crate::gens::Recipe;
use crate::planning::Planning;
use command_words::{Command, Goals, WordsFault, read_words};
use core_cases::goals_of;
use goal_set::GoalFault;
use plan_terms::{ListOf, Topic};
use std::alloc::Global;
use user_tasks::{Ask, Op};

/// A command.
#[derive(Drop)]
pub enum Request {
    /// Plans, and writes the plan or its trace.
    Plan {
        file: String,
        trace: bool,
        planning: Planning,
    },
    /// Checks a trace against the file.
    Check {
        file: String,
        trace: String,
        planning: Planning,
    },
    /// Plans, carries the plan out on one thread, and writes all lists.
    Apply {
        file: String,
        planning: Planning,
    },
    /// Makes a cluster from a seed, and writes the summary of a plan for it.
    Gen {
        recipe: Recipe,
        /// The cluster file itself is written.
        whole: bool,
        planning: Planning,
    },
    /// Answers the requests of the input, with no movers and no planners of its own.
    Session {
        file: String,
        /// What starts something is reviewed first.
        review: bool,
    },
}

// A rebalance with these goals, unless their names are refused.
fn rebalance(alloc: Global, goals: Goals, excluded: Vec<Topic>) -> Result<Planning, WordsFault>
    ensures ok { IfOk result
        (λ p. (p.ask ≡ rebalance (goals_view goals) excluded.items) × (goals_fault p.ask ≡ None)) }
    ensures usage { IfErr result
        (λ e. e ≡ WordsFault.Usage
        → IsSome (goals_fault (rebalance (goals_view goals) excluded.items))) }
{
    let Goals {
        names,
        skip_hard_goal_check,
    } = goals;
    let ask = Ask {
        op: Op::Rebalance,
        brokers: ListOf::new(Vec::new(alloc)),
        goals: ListOf::new(names),
        skip: skip_hard_goal_check,
        excluded: ListOf::new(excluded),
        dryrun: false,
        topics: ListOf::new(Vec::new(alloc)),
        factor: 0,
    };
    match goals_of(alloc, &ask) {
        Ok(goals) => Ok(Planning { ask, goals }),
        Err(GoalFault::Memory) => Err(WordsFault::Memory),
        Err(_) => Err(WordsFault::Usage),
    }
}

/// The command that the words ask of a run that waits for nobody.
///
/// # Errors
///
/// `WordsFault::Usage` where they ask none: where they mean no command, where the names of its
/// goals are refused, and where the command belongs to a run with threads or a listener.
/// `WordsFault::Memory` out of memory.
pub fn read_request(alloc: Global, words: &[String]) -> Result<Request, WordsFault>
    ensures ok { IfOk result (λ r. command (map string_bytes words.now) ≡ Some (asked r)) }
    ensures usage { IfErr result
        (λ e. e ≡ WordsFault.Usage → command (map string_bytes words.now) ≡ None) }
{
    match read_words(alloc, words)? {
        Command::Plan {
            file,
            goals,
            excluded_topics,
            trace,
        } => Ok(Request::Plan {
            file,
            trace,
            planning: rebalance(alloc, goals, excluded_topics)?,
        }),
        Command::Check {
            file,
            trace,
            goals,
            excluded_topics,
        } => Ok(Request::Check {
            file,
            trace,
            planning: rebalance(alloc, goals, excluded_topics)?,
        }),
        Command::Apply {
            file,
            goals,
            excluded_topics,
        } => Ok(Request::Apply {
            file,
            planning: rebalance(alloc, goals, excluded_topics)?,
        }),
        Command::Gen {
            seed,
            brokers,
            partitions,
            goals,
            whole,
        } => {
            let recipe = Recipe {
                seed,
                brokers,
                partitions,
            };
            Ok(Request::Gen {
                recipe,
                whole,
                planning: rebalance(alloc, goals, Vec::new(alloc))?,
            })
        }
        Command::Session {
            file,
            workers,
            review,
        } if workers.movers == 0 && workers.planners == 0 => Ok(Request::Session { file, review }),
        _ => Err(WordsFault::Usage),
    }
}
