// The commands, told to clap argument by argument.
ghost use Rattle.std.specs.Prelude.{◌≡◌, false, IfOk};
ghost use Rattle.clap.specs.Words.{app_of};
ghost use Rattle.clap.specs.declared.builder.command.Command.TheViews.{out-Command};
ghost use Rattle.command_words.specs.Arguments.{apply_app, check_app, gen_app, plan_app, serve_app, session_app, the_app};

use crate::arguments;
use clap::Command;
use std::alloc::{AllocError, Global};

fn plan_command<'a>(alloc: Global) -> Result<Command<'a>, AllocError>
    ensures app { IfOk result (λ c. app_of c ≡ plan_app) }
    ensures local { IfOk result (λ c. (out-Command c).has_globals ≡ false) }
{
    let named = Command::new(alloc, "plan");
    let with_file = named.arg(arguments::file(alloc))?;
    let with_goals = with_file.arg(arguments::goals(alloc))?;
    let with_skip_hard_goal_check = with_goals.arg(arguments::skip_hard_goal_check(alloc))?;
    let with_excluded_topics = with_skip_hard_goal_check.arg(arguments::excluded_topics(alloc))?;
    with_excluded_topics.arg(arguments::trace_flag(alloc))
}

fn check_command<'a>(alloc: Global) -> Result<Command<'a>, AllocError>
    ensures app { IfOk result (λ c. app_of c ≡ check_app) }
    ensures local { IfOk result (λ c. (out-Command c).has_globals ≡ false) }
{
    let named = Command::new(alloc, "check");
    let with_file = named.arg(arguments::file(alloc))?;
    let with_trace_file = with_file.arg(arguments::trace_file(alloc))?;
    let with_goals = with_trace_file.arg(arguments::goals(alloc))?;
    let with_skip_hard_goal_check = with_goals.arg(arguments::skip_hard_goal_check(alloc))?;
    with_skip_hard_goal_check.arg(arguments::excluded_topics(alloc))
}

fn apply_command<'a>(alloc: Global) -> Result<Command<'a>, AllocError>
    ensures app { IfOk result (λ c. app_of c ≡ apply_app) }
    ensures local { IfOk result (λ c. (out-Command c).has_globals ≡ false) }
{
    let named = Command::new(alloc, "apply");
    let with_file = named.arg(arguments::file(alloc))?;
    let with_goals = with_file.arg(arguments::goals(alloc))?;
    let with_skip_hard_goal_check = with_goals.arg(arguments::skip_hard_goal_check(alloc))?;
    with_skip_hard_goal_check.arg(arguments::excluded_topics(alloc))
}

fn gen_command<'a>(alloc: Global) -> Result<Command<'a>, AllocError>
    ensures app { IfOk result (λ c. app_of c ≡ gen_app) }
    ensures local { IfOk result (λ c. (out-Command c).has_globals ≡ false) }
{
    let named = Command::new(alloc, "gen");
    let with_seed = named.arg(arguments::seed(alloc))?;
    let with_goals = with_seed.arg(arguments::goals(alloc))?;
    let with_skip_hard_goal_check = with_goals.arg(arguments::skip_hard_goal_check(alloc))?;
    let with_file_flag = with_skip_hard_goal_check.arg(arguments::file_flag(alloc))?;
    let with_brokers = with_file_flag.arg(arguments::brokers(alloc))?;
    with_brokers.arg(arguments::partitions(alloc))
}

fn session_command<'a>(alloc: Global) -> Result<Command<'a>, AllocError>
    ensures app { IfOk result (λ c. app_of c ≡ session_app) }
    ensures local { IfOk result (λ c. (out-Command c).has_globals ≡ false) }
{
    let named = Command::new(alloc, "session");
    let with_file = named.arg(arguments::file(alloc))?;
    let with_movers = with_file.arg(arguments::movers(alloc))?;
    let with_planners = with_movers.arg(arguments::planners(alloc))?;
    with_planners.arg(arguments::review(alloc))
}

fn serve_command<'a>(alloc: Global) -> Result<Command<'a>, AllocError>
    ensures app { IfOk result (λ c. app_of c ≡ serve_app) }
    ensures local { IfOk result (λ c. (out-Command c).has_globals ≡ false) }
{
    let named = Command::new(alloc, "serve");
    let with_file = named.arg(arguments::file(alloc))?;
    let with_movers = with_file.arg(arguments::movers(alloc))?;
    let with_planners = with_movers.arg(arguments::planners(alloc))?;
    let with_listen = with_planners.arg(arguments::listen(alloc))?;
    let with_links = with_listen.arg(arguments::links(alloc))?;
    let with_review = with_links.arg(arguments::review(alloc))?;
    let with_forever = with_review.arg(arguments::forever(alloc))?;
    with_forever.arg(arguments::page(alloc))
}

/// The program with its six commands.
pub fn whole_command<'a>(alloc: Global) -> Result<Command<'a>, AllocError>
    ensures { IfOk result (λ c. app_of c ≡ the_app) }
{
    let plan = plan_command(alloc)?;
    let check = check_command(alloc)?;
    let apply = apply_command(alloc)?;
    let generate = gen_command(alloc)?;
    let session = session_command(alloc)?;
    let serve = serve_command(alloc)?;
    let program = Command::new(alloc, "sumpharu")
        .no_binary_name(true)
        .subcommand_required(true);
    let with_plan = program.subcommand(plan)?;
    let with_check = with_plan.subcommand(check)?;
    let with_apply = with_check.subcommand(apply)?;
    let with_gen = with_apply.subcommand(generate)?;
    let with_session = with_gen.subcommand(session)?;
    with_session.subcommand(serve)
}
