//! The words of the program, and the command that they are.

ghost use Rattle.std.specs.Prelude.{◌≡◌, ◌<◌, ◌≤◌, ◌^◌, IfSome};
ghost use Rattle.samr_run.specs.Words.{number_between, number_behind, check_of, make_of, command_of, IsCommand, texts};

use itoa::Buffer;

/// What the program is asked to do.
#[derive(Clone, Copy, Debug)]
pub enum Command {
    /// Print level 0 of a problem on this many ranks.
    Check(u16),
    /// Print the problem that is made of a seed and a size.
    Make { seed: u32, size: u32 },
}

/// The number from `low` to `high` whose decimal digits the word is.
fn number_between(low: u64, high: u64, word: &str) -> Option<u64>
    requires { high < 2 ^ 64 }
    ensures value { result ≡ number_between low high word.now }
    ensures within { IfSome result (λ n. (low ≤ n) × (n ≤ high)) }
{
    let Ok(number) = word.parse::<u64>() else {
        return None;
    };
    if number < low {
        return None;
    }
    if number > high {
        return None;
    }
    let mut buffer = Buffer::new();
    if buffer.format(number) == word {
        return Some(number);
    }
    None
}

/// The number from `low` to `high` behind a name, of words that are names with their values.
fn number_behind(name: &str, low: u64, high: u64, words: &[String]) -> Option<u64>
    requires { high < 2 ^ 64 }
    ensures value { result ≡ number_behind name.now low high (texts words.now) }
    ensures within { IfSome result (λ n. (low ≤ n) × (n ≤ high)) }
{
    let [first, value, others @ ..] = words else {
        return None;
    };
    if first.as_str() == name {
        return number_between(low, high, value.as_str());
    }
    number_behind(name, low, high, others)
}

/// What `check` is asked by the words behind it.
#[tactic(auto, unfolding(crate::specs::Words::check_of))]
fn check_of(words: &[String]) -> Option<Command>
    ensures value { result ≡ check_of (texts words.now) }
    ensures command { IfSome result IsCommand }
{
    if words.len() != 2 {
        return None;
    }
    let ranks = number_behind("--ranks", 1, 16, words)?;
    Some(Command::Check(ranks as u16))
}

/// What `make` is asked by the words behind it.
#[tactic(auto, unfolding(crate::specs::Words::make_of))]
fn make_of(words: &[String]) -> Option<Command>
    ensures value { result ≡ make_of (texts words.now) }
    ensures command { IfSome result IsCommand }
{
    if words.len() != 4 {
        return None;
    }
    let seed = number_behind("--seed", 0, 4_294_967_295, words)?;
    let size = number_behind("--size", 1, 64, words)?;
    Some(Command::Make {
        seed: seed as u32,
        size: size as u32,
    })
}

/// The command that the words are: `None` exactly where they are of no command's form.
#[tactic(auto, unfolding(crate::specs::Words::command_of))]
pub fn command_of(words: &[String]) -> Option<Command>
    ensures value { result ≡ command_of (texts words.now) }
    ensures command { IfSome result IsCommand }
{
    let [command, others @ ..] = words else {
        return None;
    };
    match command.as_str() {
        "check" => check_of(others),
        "make" => make_of(others),
        _ => None,
    }
}
