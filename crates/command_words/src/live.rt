// Which words want a run with threads or a listener.
ghost use Rattle.std.specs.Prelude.{◌≡◌, eqb, map, string_bytes};
ghost use Rattle.std.specs.List.{starts_with};
ghost use Rattle.command_words.specs.Live.{asks_movers, asks_planners, asks_workers, next_is_another, wants_live};

// The word begins with this text.
fn begins_with(word: &str, start: &str) -> bool
    ensures { result ≡ starts_with eqb word.now start.now }
{
    word.starts_with(start)
}

// The next word is there and isn't `0`.
fn next_is_another(words: &[String]) -> bool
    ensures { result ≡ next_is_another (map string_bytes words.now) }
{
    match words {
        [word, ..] => word.as_str() != "0",
        [] => false,
    }
}

// The word, with those behind it, asks for movers.
fn asks_movers(word: &str, words: &[String]) -> bool
    ensures { result ≡ asks_movers word.now (map string_bytes words.now) }
{
    let stands = word == "--movers" && next_is_another(words);
    stands || (begins_with(word, "--movers=") && word != "--movers=0")
}

// The word, with those behind it, asks for planners.
fn asks_planners(word: &str, words: &[String]) -> bool
    ensures { result ≡ asks_planners word.now (map string_bytes words.now) }
{
    let stands = word == "--planners" && next_is_another(words);
    stands || (begins_with(word, "--planners=") && word != "--planners=0")
}

// One of the words asks for movers or planners.
fn asks_workers(words: &[String]) -> bool
    ensures { result ≡ asks_workers (map string_bytes words.now) }
{
    let mut rest = words;
    while let [word, behind @ ..] = rest {
        if asks_movers(word, behind) || asks_planners(word, behind) {
            return true;
        }
        rest = behind;
    }
    false
}

/// Whether the words want a run with threads or a listener: `serve`, or `session` with movers or
/// planners. They need not mean a command.
pub fn wants_live(words: &[String]) -> bool
    ensures { result ≡ wants_live (map string_bytes words.now) }
{
    match words {
        [word, behind @ ..] => {
            word.as_str() == "serve" || (word.as_str() == "session" && asks_workers(behind))
        }
        [] => false,
    }
}
