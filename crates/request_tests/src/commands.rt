// What words mean, as they come from a shell.
use crate::texts::push;
use command_words::{Command, Goals, Workers, read_words, wants_live};
use plan_terms::Topic;
use std::alloc::Global;
use std::process::Abort;

fn push_goals(rt: &impl Abort, text: &mut String, goals: &Goals) {
    for name in &goals.names {
        push(rt, text, " goal ");
        push(rt, text, name.as_str());
    }
    let skips = goals.skip_hard_goal_check;
    push(rt, text, if skips { " skip" } else { "" });
}

fn push_topics(rt: &impl Abort, text: &mut String, topics: &[Topic]) {
    for topic in topics {
        push(rt, text, " without ");
        push(rt, text, topic.as_str());
    }
}

fn push_review(rt: &impl Abort, text: &mut String, review: bool) {
    push(rt, text, if review { " review" } else { "" });
}

fn push_forever(rt: &impl Abort, text: &mut String, forever: bool) {
    push(rt, text, if forever { " forever" } else { "" });
}

fn push_page(rt: &impl Abort, text: &mut String, page: bool) {
    push(rt, text, if page { " page" } else { "" });
}

// A command without goals, topics and flags of a service, in words.
fn begun(rt: &impl Abort, alloc: Global, command: &Command) -> String {
    let said = match command {
        Command::Plan { file, trace, .. } => format!(in alloc; "plan {file} {trace}"),
        Command::Check { file, trace, .. } => format!(in alloc; "check {file} {trace}"),
        Command::Apply { file, .. } => format!(in alloc; "apply {file}"),
        Command::Gen {
            seed,
            brokers,
            partitions,
            whole,
            ..
        } => format!(in alloc; "gen {seed} {brokers} {partitions} {whole}"),
        Command::Session { file, workers, .. } => {
            let Workers { movers, planners } = *workers;
            format!(in alloc; "session {file} {movers} {planners}")
        }
        Command::Serve {
            file,
            workers,
            listen,
            links,
            ..
        } => {
            let Workers { movers, planners } = *workers;
            format!(in alloc; "serve {file} {movers} {planners} {listen} {links}")
        }
    };
    said.expect(rt, "memory")
}

// A command, in words.
fn told(rt: &impl Abort, alloc: Global, command: &Command) -> String {
    let mut text = begun(rt, alloc, command);
    match command {
        Command::Plan {
            goals,
            excluded_topics,
            ..
        }
        | Command::Check {
            goals,
            excluded_topics,
            ..
        }
        | Command::Apply {
            goals,
            excluded_topics,
            ..
        } => {
            push_goals(rt, &mut text, goals);
            push_topics(rt, &mut text, excluded_topics);
        }
        Command::Gen { goals, .. } => push_goals(rt, &mut text, goals),
        Command::Session { review, .. } => push_review(rt, &mut text, *review),
        Command::Serve {
            review,
            forever,
            page,
            ..
        } => {
            push_review(rt, &mut text, *review);
            push_forever(rt, &mut text, *forever);
            push_page(rt, &mut text, *page);
        }
    }
    text
}

// The words between the blanks: two blanks make an empty word.
fn split(rt: &impl Abort, alloc: Global, line: &str) -> Vec<String> {
    let mut words = Vec::new(alloc);
    for word in line.split(' ') {
        let word = String::from_str(alloc, word).expect(rt, "memory");
        words.push(word).expect(rt, "memory");
    }
    words
}

// Words that are taken, and what they mean.
const LINES: [(&str, &str); 37] = [
    ("plan F", "plan F false"),
    ("plan F --goals A", "plan F false goal A"),
    ("plan F --goals=A,B", "plan F false goal A goal B"),
    ("plan --goals B,,A F", "plan F false goal B goal  goal A"),
    ("plan F --goals ", "plan F false"),
    ("plan F --goals=", "plan F false"),
    ("plan F --goals ,", "plan F false goal  goal "),
    ("plan F --skip-hard-goal-check", "plan F false skip"),
    ("plan F --excluded-topics x", "plan F false without x"),
    (
        "plan F --excluded-topics=x,y",
        "plan F false without x without y",
    ),
    ("plan F --trace", "plan F true"),
    (
        "plan --trace --excluded-topics t --skip-hard-goal-check --goals G F",
        "plan F true goal G skip without t",
    ),
    ("plan -- --trace", "plan --trace false"),
    ("check F T", "check F T"),
    (
        "check F --goals A T --skip-hard-goal-check --excluded-topics x",
        "check F T goal A skip without x",
    ),
    ("apply F", "apply F"),
    (
        "apply F --excluded-topics x --goals A --skip-hard-goal-check",
        "apply F goal A skip without x",
    ),
    ("gen 0", "gen 0 40 2000 false"),
    ("gen 2147483647", "gen 2147483647 40 2000 false"),
    (
        "gen 7 --brokers 1 --partitions 0 --file --goals A --skip-hard-goal-check",
        "gen 7 1 0 true goal A skip",
    ),
    (
        "gen 7 --brokers=200 --partitions=10000",
        "gen 7 200 10000 false",
    ),
    ("session F", "session F 0 0"),
    ("session F --movers 64 --planners=4", "session F 64 4"),
    ("session --planners 0 --movers=0 F", "session F 0 0"),
    ("session F --review", "session F 0 0 review"),
    ("session --review F --movers 1", "session F 1 0 review"),
    ("session -- --review", "session --review 0 0"),
    ("serve F", "serve F 0 0 127.0.0.1:9090 1"),
    (
        "serve F --movers=2 --planners 1 --listen 0.0.0.0:80 --links 64",
        "serve F 2 1 0.0.0.0:80 64",
    ),
    ("serve F --links=1", "serve F 0 0 127.0.0.1:9090 1"),
    ("serve --review F", "serve F 0 0 127.0.0.1:9090 1 review"),
    ("serve F --forever", "serve F 0 0 127.0.0.1:9090 16 forever"),
    (
        "serve --page F --forever",
        "serve F 0 0 127.0.0.1:9090 16 forever page",
    ),
    (
        "serve --forever F --links 1",
        "serve F 0 0 127.0.0.1:9090 1 forever",
    ),
    (
        "serve F --links=64 --forever --movers 1",
        "serve F 1 0 127.0.0.1:9090 64 forever",
    ),
    (
        "serve F --forever --review",
        "serve F 0 0 127.0.0.1:9090 16 review forever",
    ),
    ("serve -- --forever", "serve --forever 0 0 127.0.0.1:9090 1"),
];

#[test]
fn words_mean_their_command(rt: HostRuntime) {
    let alloc = rt.alloc();
    for (line, want) in &LINES {
        let words = split(&rt, alloc, line);
        let Ok(command) = read_words(alloc, &words) else {
            panic!(rt; "{line}");
        };
        let text = told(&rt, alloc, &command);
        assert_eq!(rt; text.as_str(), *want, "{line}");
    }
}

// Words, and whether they want a run with threads or a listener.
const LIVE: [(&str, bool); 22] = [
    ("plan F", false),
    ("plan F --movers 2", false),
    ("serve F", true),
    ("serve", true),
    ("session F", false),
    ("session F --movers", false),
    ("session F --movers 0", false),
    ("session F --movers=0", false),
    ("session F --movers=", true),
    ("session F --movers 2", true),
    ("session F --movers=00", true),
    ("session --movers 0 F --planners 1", true),
    ("session F --planners 0", false),
    ("session F --planners=0 --movers=0", false),
    ("session F --planners=4", true),
    ("session F --planners ", true),
    ("session F --mover=2", false),
    ("session F --review", false),
    ("session --review F --movers 1", true),
    ("session F --forever", false),
    ("serve F --forever", true),
    ("F serve", false),
];

#[test]
fn sessions_with_workers_and_services_want_a_live_run(rt: HostRuntime) {
    let alloc = rt.alloc();
    for (line, want) in &LIVE {
        let words = split(&rt, alloc, line);
        assert_eq!(rt; wants_live(&words), *want, "{line}");
    }
}
