// What the words ask for.

ghost use Rattle.std.specs.Prelude.{◌≡◌, Some, None, map, string_bytes, MatchOption};
ghost use Rattle.yarrow.specs.Commands.{command_of, command_seen, check_with, format_with, batch_with, replay_with, is_module};

use pts_names::is_identifier;

/// A command, with what comes after its word.
#[derive(Clone, Copy, Debug)]
pub(crate) enum Command<'a> {
    /// `check`
    Check,
    /// `format SPEC`
    Format(&'a str),
    /// `batch SPEC MODULE`
    Batch(&'a str, &'a str),
    /// `replay SPEC`
    Replay(&'a str),
}

/// The command that the words are, or nothing where they have no form.
#[tactic(auto, unfolding(crate::specs::Commands::command_of))]
pub(crate) fn command_of(words: &[String]) -> Option<Command<'_>>
    ensures { MatchOption result
        (command_of (map string_bytes words.now) ≡ None)
        (λ c. command_of (map string_bytes words.now) ≡ Some (command_seen c)) }
{
    let [word, rest @ ..] = words else {
        return None;
    };
    match word.as_str() {
        "check" => check_with(rest),
        "format" => format_with(rest),
        "batch" => batch_with(rest),
        "replay" => replay_with(rest),
        _ => None,
    }
}

fn check_with(words: &[String]) -> Option<Command<'_>>
    ensures { MatchOption result
        (check_with (map string_bytes words.now) ≡ None)
        (λ c. check_with (map string_bytes words.now) ≡ Some (command_seen c)) }
{
    match words {
        [] => Some(Command::Check),
        _ => None,
    }
}

fn format_with(words: &[String]) -> Option<Command<'_>>
    ensures { MatchOption result
        (format_with (map string_bytes words.now) ≡ None)
        (λ c. format_with (map string_bytes words.now) ≡ Some (command_seen c)) }
{
    match words {
        [word] if !word.is_empty() => Some(Command::Format(word.as_str())),
        _ => None,
    }
}

fn batch_with(words: &[String]) -> Option<Command<'_>>
    ensures { MatchOption result
        (batch_with (map string_bytes words.now) ≡ None)
        (λ c. batch_with (map string_bytes words.now) ≡ Some (command_seen c)) }
{
    match words {
        [word, name] if !word.is_empty() && is_module(name.as_str()) => {
            Some(Command::Batch(word.as_str(), name.as_str()))
        }
        _ => None,
    }
}

fn replay_with(words: &[String]) -> Option<Command<'_>>
    ensures { MatchOption result
        (replay_with (map string_bytes words.now) ≡ None)
        (λ c. replay_with (map string_bytes words.now) ≡ Some (command_seen c)) }
{
    match words {
        [word] if !word.is_empty() => Some(Command::Replay(word.as_str())),
        _ => None,
    }
}

// Whether the word names a module.
fn is_module(word: &str) -> bool
    ensures { result ≡ is_module word.now }
{
    is_identifier(word) && word != "_" && word.len() <= 128
}
