// The commands with their options, from what clap found in their words.
ghost use Rattle.std.specs.Prelude.{◌≡◌, IfOk, option_and_then, option_map};
ghost use Rattle.clap.specs.Words.{found_of, rows_of, subcommand_rows_of};
ghost use Rattle.command_words.specs.Names.{names_of};
ghost use Rattle.command_words.specs.Meaning as words;
ghost use Rattle.command_words.specs.Meaning.{apply_of, asked_of, check_of, excluded_of, forever_of, gen_of, goals_of, goals_view, links_of, page_of, plan_of, review_of, serve_of, session_of, told, workers_of, workers_view};

use crate::commands::{Command, Goals, Workers};
use crate::values::{is_given, number_in};
use clap::ArgMatches;
use plan_terms::{Name, Topic, names};
use std::alloc::{AllocError, Global};

// The names in the value of an option, none where it isn't given.
fn names_of<K>(alloc: Global, text: Option<&str>) -> Result<Vec<Name<K>>, AllocError>
    ensures { IfOk result (λ v. v.items ≡ names_of (option_map (λ s. s.now) text.entry)) }
{
    match text {
        Some(text) => names(alloc, text),
        None => Ok(Vec::new(alloc)),
    }
}

#[tactic(auto, using(crate::proofs::Rows::first_text))]
fn goals(alloc: Global, found: &ArgMatches<'_>) -> Result<Goals, AllocError>
    ensures { IfOk result (λ g. goals_view g ≡ goals_of (rows_of (found_of found.now))) }
{
    Ok(Goals {
        names: names_of(alloc, found.get_str("goals"))?,
        skip_hard_goal_check: is_given(found.get_str("skip-hard-goal-check")),
    })
}

#[tactic(auto, using(crate::proofs::Rows::first_text))]
fn excluded_topics(alloc: Global, found: &ArgMatches<'_>) -> Result<Vec<Topic>, AllocError>
    ensures { IfOk result (λ v. v.items ≡ excluded_of (rows_of (found_of found.now))) }
{
    names_of(alloc, found.get_str("excluded-topics"))
}

#[tactic(auto, using(crate::proofs::Rows::first_text))]
fn plan_command(alloc: Global, found: &ArgMatches<'_>) -> Result<Option<Command>, AllocError>
    ensures { IfOk result
        (λ o. option_map told o ≡ option_map words.plan (plan_of (rows_of (found_of found.now)))) }
{
    let Some(file) = found.get_str("FILE") else {
        return Ok(None);
    };
    Ok(Some(Command::Plan {
        file: String::from_str(alloc, file)?,
        goals: goals(alloc, found)?,
        excluded_topics: excluded_topics(alloc, found)?,
        trace: is_given(found.get_str("trace")),
    }))
}

#[tactic(auto, using(crate::proofs::Rows::first_text))]
fn check_command(alloc: Global, found: &ArgMatches<'_>) -> Result<Option<Command>, AllocError>
    ensures { IfOk result
        (λ o. option_map told o ≡ option_map words.check (check_of (rows_of (found_of found.now)))) }
{
    let Some(file) = found.get_str("FILE") else {
        return Ok(None);
    };
    let Some(trace) = found.get_str("TRACE") else {
        return Ok(None);
    };
    Ok(Some(Command::Check {
        file: String::from_str(alloc, file)?,
        trace: String::from_str(alloc, trace)?,
        goals: goals(alloc, found)?,
        excluded_topics: excluded_topics(alloc, found)?,
    }))
}

#[tactic(auto, using(crate::proofs::Rows::first_text))]
fn apply_command(alloc: Global, found: &ArgMatches<'_>) -> Result<Option<Command>, AllocError>
    ensures { IfOk result
        (λ o. option_map told o ≡ option_map words.apply (apply_of (rows_of (found_of found.now)))) }
{
    let Some(file) = found.get_str("FILE") else {
        return Ok(None);
    };
    Ok(Some(Command::Apply {
        file: String::from_str(alloc, file)?,
        goals: goals(alloc, found)?,
        excluded_topics: excluded_topics(alloc, found)?,
    }))
}

#[tactic(auto, using(crate::proofs::Rows::first_text))]
fn gen_command(alloc: Global, found: &ArgMatches<'_>) -> Result<Option<Command>, AllocError>
    ensures { IfOk result
        (λ o. option_map told o ≡ option_map words.gen (gen_of (rows_of (found_of found.now)))) }
{
    let Some(seed) = number_in(0, 2_147_483_647, found.get_str("SEED")) else {
        return Ok(None);
    };
    let Some(brokers) = number_in(1, 200, found.get_str("brokers")) else {
        return Ok(None);
    };
    let Some(partitions) = number_in(0, 10_000, found.get_str("partitions")) else {
        return Ok(None);
    };
    Ok(Some(Command::Gen {
        seed,
        brokers,
        partitions,
        goals: goals(alloc, found)?,
        whole: is_given(found.get_str("file")),
    }))
}

#[tactic(auto, using(crate::proofs::Rows::first_text))]
fn workers(found: &ArgMatches<'_>) -> Option<Workers>
    ensures { option_map workers_view result ≡ workers_of (rows_of (found_of found.now)) }
{
    let movers = number_in(0, 64, found.get_str("movers"))?;
    let planners = number_in(0, 4, found.get_str("planners"))?;
    Some(Workers { movers, planners })
}

#[tactic(auto, using(crate::proofs::Rows::first_text))]
fn review(found: &ArgMatches<'_>) -> bool
    ensures { result ≡ review_of (rows_of (found_of found.now)) }
{
    is_given(found.get_str("review"))
}

#[tactic(auto, using(crate::proofs::Rows::first_text))]
fn session_command(alloc: Global, found: &ArgMatches<'_>) -> Result<Option<Command>, AllocError>
    ensures { IfOk result
        (λ o. option_map told o ≡ option_map words.session (session_of (rows_of (found_of found.now)))) }
{
    let Some(file) = found.get_str("FILE") else {
        return Ok(None);
    };
    let Some(workers) = workers(found) else {
        return Ok(None);
    };
    Ok(Some(Command::Session {
        file: String::from_str(alloc, file)?,
        workers,
        review: review(found),
    }))
}

#[tactic(auto, using(crate::proofs::Rows::first_text))]
fn forever(found: &ArgMatches<'_>) -> bool
    ensures { result ≡ forever_of (rows_of (found_of found.now)) }
{
    is_given(found.get_str("forever"))
}

#[tactic(auto, using(crate::proofs::Rows::first_text))]
fn page(found: &ArgMatches<'_>) -> bool
    ensures { result ≡ page_of (rows_of (found_of found.now)) }
{
    is_given(found.get_str("page"))
}

#[tactic(auto, using(crate::proofs::Rows::first_text))]
fn links(found: &ArgMatches<'_>) -> Option<u32>
    ensures { result ≡ links_of (rows_of (found_of found.now)) }
{
    match found.get_str("links") {
        Some(text) => number_in(1, 64, Some(text)),
        None if forever(found) => Some(16),
        None => Some(1),
    }
}

#[tactic(auto, using(crate::proofs::Rows::first_text))]
fn serve_command(alloc: Global, found: &ArgMatches<'_>) -> Result<Option<Command>, AllocError>
    ensures { IfOk result
        (λ o. option_map told o ≡ option_map words.serve (serve_of (rows_of (found_of found.now)))) }
{
    let Some(file) = found.get_str("FILE") else {
        return Ok(None);
    };
    let Some(workers) = workers(found) else {
        return Ok(None);
    };
    let Some(listen) = found.get_str("listen") else {
        return Ok(None);
    };
    let Some(links) = links(found) else {
        return Ok(None);
    };
    Ok(Some(Command::Serve {
        file: String::from_str(alloc, file)?,
        workers,
        listen: String::from_str(alloc, listen)?,
        links,
        review: review(found),
        forever: forever(found),
        page: page(found),
    }))
}

/// The command with its options that clap found.
pub fn found_command(alloc: Global, found: &ArgMatches<'_>) -> Result<Option<Command>, AllocError>
    ensures { IfOk result
        (λ o. option_map told o ≡ option_and_then asked_of (subcommand_rows_of found.now)) }
{
    let Some((name, inner)) = found.subcommand() else {
        return Ok(None);
    };
    if name == "plan" {
        return plan_command(alloc, inner);
    }
    if name == "check" {
        return check_command(alloc, inner);
    }
    if name == "apply" {
        return apply_command(alloc, inner);
    }
    if name == "gen" {
        return gen_command(alloc, inner);
    }
    if name == "session" {
        return session_command(alloc, inner);
    }
    if name == "serve" {
        return serve_command(alloc, inner);
    }
    Ok(None)
}
