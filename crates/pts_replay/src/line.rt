ghost use Rattle.std.specs.Prelude.{◌≡◌, ◌≢◌, ◌++◌, ◌∷◌, ℕ, Bool, true, MatchOption, IfOk, codes};
ghost use Rattle.std.specs.Fmt.{decimal};
ghost use Rattle.pts_play.specs.Inputs.{IsSession};
ghost use Rattle.pts_replay.specs.Lines.{input_of, HasForm, NoBlank, SessionIn};

use pts_bytes::{is_digits, number_up_to};
use pts_names::Text;
use std::alloc::{AllocError, Global};

/// What a line of the input asks for.
#[derive(Drop)]
pub(crate) enum Asked {
    /// A line of the session with this number.
    Line(u32, Text),
    /// That the round runs, with these numbers.
    Go(Vec<u32>),
    /// That the run ends.
    End,
    /// Nothing that is known.
    Unknown,
}

/// What the line asks for. `go` may be followed by numbers where these are taken.
pub(crate) fn read_line(alloc: Global, line: &str, numbered: bool) -> Result<Asked, AllocError>
    ensures { IfOk result (λ a. HasForm numbered line.now (input_of a)) }
{
    match line.split_once(' ') {
        Some((word, rest)) => read_words(alloc, word, rest, numbered),
        None => Ok(read_word(alloc, line)),
    }
}

// What a line without a blank asks for.
fn read_word(alloc: Global, word: &str) -> Asked
    requires { NoBlank word.now }
    ensures { (numbered : Bool) → HasForm numbered word.now (input_of result) }
{
    if word == "go" {
        return Asked::Go(Vec::new(alloc));
    }
    if word == "end" {
        return Asked::End;
    }
    Asked::Unknown
}

// What a line asks for that has this word before its first blank, and this rest after it.
fn read_words(alloc: Global, word: &str, rest: &str, numbered: bool) -> Result<Asked, AllocError>
    requires { NoBlank word.now }
    ensures { IfOk result (λ a. HasForm numbered (word.now ++ 32 ∷ rest.now) (input_of a)) }
{
    if word == "go" {
        return read_numbers(alloc, rest, numbered);
    }
    match session_of(word) {
        Some(number) => {
            let text = String::from_str(alloc, rest)?;
            Ok(Asked::Line(number, Text::of(text)))
        }
        None => Ok(Asked::Unknown),
    }
}

// What a line asks for in which this comes after `go` and a blank.
fn read_numbers(alloc: Global, text: &str, numbered: bool) -> Result<Asked, AllocError>
    ensures { IfOk result (λ a. HasForm numbered (codes "go" ++ 32 ∷ text.now) (input_of a)) }
{
    if !numbered {
        return Ok(Asked::Unknown);
    }
    let mut numbers = Vec::new(alloc);
    let mut rest = text;
    while let Some((word, after)) = rest.split_once(' ') {
        let Some(number) = session_in(word) else {
            return Ok(Asked::Unknown);
        };
        numbers.push(number)?;
        rest = after;
    }
    let Some(number) = session_in(rest) else {
        return Ok(Asked::Unknown);
    };
    numbers.push(number)?;
    Ok(Asked::Go(numbers))
}

// The number of the session whose lines begin with the word.
fn session_of(word: &str) -> Option<u32>
    ensures { MatchOption result ((n : ℕ) → IsSession n → word.now ≢ codes "@" ++ decimal n) (λ n. IsSession n × (word.now ≡ codes "@" ++ decimal n)) }
{
    let digits = word.strip_prefix('@')?;
    session_in(digits)
}

// The number of a session that the word is.
fn session_in(word: &str) -> Option<u32>
    ensures { SessionIn word.now result }
{
    let digits = word.as_bytes();
    if !is_digits(digits) {
        return None;
    }
    let number = number_up_to(64, digits)?;
    if number == 0 {
        return None;
    }
    Some(number as u32)
}
