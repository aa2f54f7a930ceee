ghost use Rattle.std.specs.Prelude.{◌≡◌};
ghost use Rattle.pts_lines.specs.Words as words;

use crate::command::{Alone, Asked, Command, Declaring, Named, Placed, WithType};

/// The command that a word is.
#[tactic(auto, unfolding(crate::specs::Words::command))]
pub(crate) fn command(word: &str) -> Option<Command>
    ensures { result ≡ words.command word.now }
{
    if let Some(alone) = session(word).or(proof(word)) {
        return Some(Command::OfNothing(alone));
    }
    if let Some(named) = named(word) {
        return Some(Command::OfPlain(named));
    }
    if let Some(placed) = placed(word) {
        return Some(Command::OfName(placed));
    }
    if let Some(asked) = asked(word) {
        return Some(Command::OfTerm(asked));
    }
    if let Some(typed) = typed(word) {
        return Some(Command::OfType(typed));
    }
    other(word)
}

/// A word of the session that stands alone.
#[tactic(auto, using(crate::proofs::Differs::differs))]
fn session(word: &str) -> Option<Alone>
    ensures { result ≡ words.session word.now }
{
    match word {
        "look" => Some(Alone::Look),
        "commit" => Some(Alone::Commit),
        "undo" => Some(Alone::Undo),
        "discard" => Some(Alone::Discard),
        "draft" => Some(Alone::Draft),
        _ => None,
    }
}

/// A word of a proof that stands alone.
#[tactic(auto, using(crate::proofs::Differs::differs))]
fn proof(word: &str) -> Option<Alone>
    ensures { result ≡ words.proof word.now }
{
    match word {
        "goals" => Some(Alone::Goals),
        "qed" => Some(Alone::Qed),
        "abort" => Some(Alone::Abort),
        _ => None,
    }
}

/// A word before a plain name.
#[tactic(auto, using(crate::proofs::Differs::differs))]
fn named(word: &str) -> Option<Named>
    ensures { result ≡ words.named word.now }
{
    match word {
        "load" => Some(Named::Load),
        "accept" => Some(Named::Accept),
        "intro" => Some(Named::Intro),
        _ => None,
    }
}

/// A word before any name.
#[tactic(auto, using(crate::proofs::Differs::differs))]
fn placed(word: &str) -> Option<Placed>
    ensures { result ≡ words.placed word.now }
{
    match word {
        "unfold" => Some(Placed::Unfold),
        "show" => Some(Placed::Show),
        _ => None,
    }
}

/// A word before a term.
#[tactic(auto, using(crate::proofs::Differs::differs))]
fn asked(word: &str) -> Option<Asked>
    ensures { result ≡ words.asked word.now }
{
    match word {
        "exact" => Some(Asked::Exact),
        "apply" => Some(Asked::Apply),
        "convert" => Some(Asked::Convert),
        "infer" => Some(Asked::Infer),
        "reduce" => Some(Asked::Reduce),
        _ => None,
    }
}

/// A word before a plain name with its type.
#[tactic(auto, using(crate::proofs::Differs::differs))]
fn typed(word: &str) -> Option<WithType>
    ensures { result ≡ words.typed word.now }
{
    match word {
        "assume" => Some(WithType::Assume),
        "theorem" => Some(WithType::Theorem),
        "cut" => Some(WithType::Cut),
        _ => None,
    }
}

/// A word after which no other has the same.
#[tactic(auto, using(crate::proofs::Differs::differs))]
fn other(word: &str) -> Option<Command>
    ensures { result ≡ words.other word.now }
{
    match word {
        "rename" => Some(Command::Rename),
        "budget" => Some(Command::Budget),
        "equal" => Some(Command::Equal),
        "define" => Some(Command::Define),
        "instance" => Some(Command::Instance),
        _ => None,
    }
}

/// The word of a declaration.
#[tactic(auto, using(crate::proofs::Differs::differs))]
pub(crate) fn declared(word: &str) -> Option<Declaring>
    ensures { result ≡ words.declared word.now }
{
    match word {
        "parameter" => Some(Declaring::Parameter),
        "assume" => Some(Declaring::Assume),
        "define" => Some(Declaring::Define),
        _ => None,
    }
}
