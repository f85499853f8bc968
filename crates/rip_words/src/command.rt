ghost use Rattle.std.specs.Prelude.{◌≡◌, ◌≢◌, ◌∷◌, [], ◌<◌, ◌≤◌, ◌^◌, ℕ, List, codes, decimal, map, string_bytes, IsNone, IfSome};
ghost use Rattle.rip_words.specs.Commands.{Task, checks, replays, serves, drives, generates, IsTurns, IsOption, IsTask, task_of};

use crate::numerals::read_number;

/// How many turns a replay has where no number is given.
const REPLAYED_TURNS: u64 = 1_000_000_000;

/// How many turns a server has where no number is given, and the most that may be given.
const MOST_TURNS: u64 = 9_007_199_254_740_991;

/// What the words ask for, with the names of its files.
#[derive(Clone, Copy)]
pub enum Command<'a> {
    /// Whether a page and a manifest are an application.
    Check {
        page: &'a str,
        app: &'a str,
    },
    /// The log of a trace, within so many turns.
    Replay {
        page: &'a str,
        app: &'a str,
        trace: &'a str,
        turns: u64,
    },
    /// Service at an address, within so many turns.
    Serve {
        page: &'a str,
        app: &'a str,
        address: &'a str,
        turns: u64,
    },
    /// The trace of a user's gestures.
    Drive {
        page: &'a str,
        app: &'a str,
        gestures: &'a str,
    },
    /// The line of the work that a number makes.
    Generate(u32),
}

/// What the words ask for, or none of words that have no form.
pub fn command_of(words: &[String]) -> Option<Command<'_>>
    ensures form { IfSome result
        (λ command. IsTask (map string_bytes words.now) (task_of command)) }
    ensures other { IsNone result → (task : Task) → ¬ IsTask (map string_bytes words.now) task }
{
    let [command, rest @ ..] = words else {
        return None;
    };
    match command.as_str() {
        "check" => check_of(rest),
        "replay" => replay_of(rest),
        "serve" => serve_of(rest),
        "drive" => drive_of(rest),
        "generate" => generate_of(rest),
        _ => None,
    }
}

/// `PAGE APP`, behind `check`.
fn check_of(words: &[String]) -> Option<Command<'_>>
    ensures form { IfSome result
        (λ command. IsTask (codes "check" ∷ map string_bytes words.now) (task_of command)) }
    ensures other { IsNone result
        → (page app : List ℕ) → map string_bytes words.now ≢ page ∷ app ∷ [] }
{
    let [page, app] = words else {
        return None;
    };
    Some(Command::Check {
        page: page.as_str(),
        app: app.as_str(),
    })
}

/// `PAGE APP GESTURES`, behind `drive`.
fn drive_of(words: &[String]) -> Option<Command<'_>>
    ensures form { IfSome result
        (λ command. IsTask (codes "drive" ∷ map string_bytes words.now) (task_of command)) }
    ensures other { IsNone result
        → (page app gestures : List ℕ) → map string_bytes words.now ≢ page ∷ app ∷ gestures ∷ [] }
{
    let [page, app, gestures] = words else {
        return None;
    };
    Some(Command::Drive {
        page: page.as_str(),
        app: app.as_str(),
        gestures: gestures.as_str(),
    })
}

/// `PAGE APP TRACE [--turns=N]`, behind `replay`.
fn replay_of(words: &[String]) -> Option<Command<'_>>
    ensures form { IfSome result
        (λ command. IsTask (codes "replay" ∷ map string_bytes words.now) (task_of command)) }
    ensures other { IsNone result
        → (page app trace : List ℕ) (turns : ℕ)
        → ¬ IsTask (codes "replay" ∷ map string_bytes words.now) (replays page app trace turns) }
{
    let [page, app, trace, option @ ..] = words else {
        return None;
    };
    Some(Command::Replay {
        page: page.as_str(),
        app: app.as_str(),
        trace: trace.as_str(),
        turns: turns_in(option, REPLAYED_TURNS)?,
    })
}

/// `PAGE APP ADDRESS [--turns=N]`, behind `serve`.
fn serve_of(words: &[String]) -> Option<Command<'_>>
    ensures form { IfSome result
        (λ command. IsTask (codes "serve" ∷ map string_bytes words.now) (task_of command)) }
    ensures other { IsNone result
        → (page app address : List ℕ) (turns : ℕ)
        → ¬ IsTask (codes "serve" ∷ map string_bytes words.now) (serves page app address turns) }
{
    let [page, app, address, option @ ..] = words else {
        return None;
    };
    Some(Command::Serve {
        page: page.as_str(),
        app: app.as_str(),
        address: address.as_str(),
        turns: turns_in(option, MOST_TURNS)?,
    })
}

/// `N`, behind `generate`.
fn generate_of(words: &[String]) -> Option<Command<'_>>
    ensures form { IfSome result
        (λ command. IsTask (codes "generate" ∷ map string_bytes words.now) (task_of command)) }
    ensures other { IsNone result
        → (n : ℕ) → n < 2 ^ 32 → map string_bytes words.now ≢ decimal n ∷ [] }
{
    let [number] = words else {
        return None;
    };
    Some(Command::Generate(number_of(number.as_bytes())?))
}

/// The number below 2^32 whose numeral the word is.
#[tactic(auto, using(crate::proofs::WordLemmas::long_number, crate::proofs::WordLemmas::late_number))]
fn number_of(word: &[u8]) -> Option<u32>
    ensures is { IfSome result (λ n. word.now ≡ decimal n) }
    ensures other { IsNone result → (n : ℕ) → n < 2 ^ 32 → word.now ≢ decimal n }
{
    u32::try_from(read_number(word)?).ok()
}

/// How many turns the words behind the names ask for, where so many are usual.
fn turns_in(words: &[String], usual: u64) -> Option<u64>
    ensures is { IfSome result (λ turns. IsOption (map string_bytes words.now) usual turns) }
    ensures other { IsNone result → (turns : ℕ) → ¬ IsOption (map string_bytes words.now) usual
        turns }
{
    match words {
        [] => Some(usual),
        [word] => turns_of(word.as_bytes()),
        _ => None,
    }
}

/// The number of an option `--turns=N`.
fn turns_of(word: &[u8]) -> Option<u64>
    ensures is { IfSome result (λ turns. IsTurns word.now turns) }
    ensures other { IsNone result → (turns : ℕ) → ¬ IsTurns word.now turns }
{
    let turns = read_number(word.strip_prefix(b"--turns=")?)?;
    if turns < 1 || turns > MOST_TURNS {
        return None;
    }
    Some(turns)
}
