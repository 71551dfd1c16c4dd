// The operands and options, each told to clap by a function of its own.
ghost use Rattle.std.specs.Prelude.{◌≡◌, false};
ghost use Rattle.clap.specs.Words.{rule_of};
ghost use Rattle.command_words.specs.Arguments.{brokers_rule, excluded_rule, file_flag_rule, file_rule, forever_rule, goals_rule, links_rule, listen_rule, movers_rule, page_rule, partitions_rule, planners_rule, review_rule, seed_rule, skip_rule, trace_file_rule, trace_flag_rule};

use clap::{Arg, ArgAction};
use std::alloc::Global;

/// `FILE`, the cluster file.
pub fn file<'a>(alloc: Global) -> Arg<'a>
    ensures rule { rule_of result ≡ file_rule }
    ensures local { result.global ≡ false }
{
    Arg::new(alloc, "FILE").required(true)
}

/// `TRACE`, the trace's file.
pub fn trace_file<'a>(alloc: Global) -> Arg<'a>
    ensures rule { rule_of result ≡ trace_file_rule }
    ensures local { result.global ≡ false }
{
    Arg::new(alloc, "TRACE").required(true)
}

/// `SEED`, a number.
pub fn seed<'a>(alloc: Global) -> Arg<'a>
    ensures rule { rule_of result ≡ seed_rule }
    ensures local { result.global ≡ false }
{
    Arg::new(alloc, "SEED").required(true)
}

/// `--goals NAMES`.
pub fn goals<'a>(alloc: Global) -> Arg<'a>
    ensures rule { rule_of result ≡ goals_rule }
    ensures local { result.global ≡ false }
{
    Arg::new(alloc, "goals").long("goals")
}

/// `--skip-hard-goal-check`.
pub fn skip_hard_goal_check<'a>(alloc: Global) -> Arg<'a>
    ensures rule { rule_of result ≡ skip_rule }
    ensures local { result.global ≡ false }
{
    Arg::new(alloc, "skip-hard-goal-check")
        .long("skip-hard-goal-check")
        .action(ArgAction::SetTrue)
}

/// `--excluded-topics NAMES`.
pub fn excluded_topics<'a>(alloc: Global) -> Arg<'a>
    ensures rule { rule_of result ≡ excluded_rule }
    ensures local { result.global ≡ false }
{
    Arg::new(alloc, "excluded-topics").long("excluded-topics")
}

/// `--trace`.
pub fn trace_flag<'a>(alloc: Global) -> Arg<'a>
    ensures rule { rule_of result ≡ trace_flag_rule }
    ensures local { result.global ≡ false }
{
    Arg::new(alloc, "trace")
        .long("trace")
        .action(ArgAction::SetTrue)
}

/// `--file`.
pub fn file_flag<'a>(alloc: Global) -> Arg<'a>
    ensures rule { rule_of result ≡ file_flag_rule }
    ensures local { result.global ≡ false }
{
    Arg::new(alloc, "file")
        .long("file")
        .action(ArgAction::SetTrue)
}

/// `--brokers N`.
pub fn brokers<'a>(alloc: Global) -> Arg<'a>
    ensures rule { rule_of result ≡ brokers_rule }
    ensures local { result.global ≡ false }
{
    Arg::new(alloc, "brokers")
        .long("brokers")
        .default_value("40")
}

/// `--partitions N`.
pub fn partitions<'a>(alloc: Global) -> Arg<'a>
    ensures rule { rule_of result ≡ partitions_rule }
    ensures local { result.global ≡ false }
{
    Arg::new(alloc, "partitions")
        .long("partitions")
        .default_value("2000")
}

/// `--movers N`.
pub fn movers<'a>(alloc: Global) -> Arg<'a>
    ensures rule { rule_of result ≡ movers_rule }
    ensures local { result.global ≡ false }
{
    Arg::new(alloc, "movers").long("movers").default_value("0")
}

/// `--planners N`.
pub fn planners<'a>(alloc: Global) -> Arg<'a>
    ensures rule { rule_of result ≡ planners_rule }
    ensures local { result.global ≡ false }
{
    Arg::new(alloc, "planners")
        .long("planners")
        .default_value("0")
}

/// `--listen ADDRESS`.
pub fn listen<'a>(alloc: Global) -> Arg<'a>
    ensures rule { rule_of result ≡ listen_rule }
    ensures local { result.global ≡ false }
{
    Arg::new(alloc, "listen")
        .long("listen")
        .default_value("127.0.0.1:9090")
}

/// `--links N`.
pub fn links<'a>(alloc: Global) -> Arg<'a>
    ensures rule { rule_of result ≡ links_rule }
    ensures local { result.global ≡ false }
{
    Arg::new(alloc, "links").long("links")
}

/// `--review`.
pub fn review<'a>(alloc: Global) -> Arg<'a>
    ensures rule { rule_of result ≡ review_rule }
    ensures local { result.global ≡ false }
{
    Arg::new(alloc, "review")
        .long("review")
        .action(ArgAction::SetTrue)
}

/// `--forever`.
pub fn forever<'a>(alloc: Global) -> Arg<'a>
    ensures rule { rule_of result ≡ forever_rule }
    ensures local { result.global ≡ false }
{
    Arg::new(alloc, "forever")
        .long("forever")
        .action(ArgAction::SetTrue)
}

/// `--page`.
pub fn page<'a>(alloc: Global) -> Arg<'a>
    ensures rule { rule_of result ≡ page_rule }
    ensures local { result.global ≡ false }
{
    Arg::new(alloc, "page")
        .long("page")
        .action(ArgAction::SetTrue)
}
