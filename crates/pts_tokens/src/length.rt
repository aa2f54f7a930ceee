ghost use Rattle.std.specs.Prelude.{◌≡◌, ◌<◌, length, chars, take_while};
ghost use Rattle.std.specs.Char.{is_ascii_digit};
ghost use Rattle.pts_names.specs.Name.{continues_identifier, width};
ghost use Rattle.pts_tokens.specs.Tokens.{word, name, sort_text};
ghost use Rattle.pts_tokens.specs.Calls.{part_size};

use pts_names::{continues_identifier, is_identifier, starts_identifier};

/// How many bytes the word takes with which the text begins.
pub(crate) fn word_length(text: &str) -> usize
    ensures { result ≡ width (word (chars text.now)) }
{
    match text.chars().next() {
        Some(first) if starts_identifier(first) => run_length(text),
        _ => 0,
    }
}

/// How many bytes the characters at the beginning take with which an identifier goes on.
fn run_length(text: &str) -> usize
    ensures { result ≡ width (take_while continues_identifier (chars text.now)) }
{
    'run: for (at, ch) in text.char_indices() {
        if !continues_identifier(ch) {
            return at;
        }
    }
    text.len()
}

/// How many bytes the decimal digits at the beginning take.
pub(crate) fn digits_length(text: &str) -> usize
    ensures { result ≡ width (take_while is_ascii_digit (chars text.now)) }
{
    'run: for (at, ch) in text.char_indices() {
        if !ch.is_ascii_digit() {
            return at;
        }
    }
    text.len()
}

/// How many bytes the longest name takes with which the text begins.
pub(crate) fn name_length(text: &str) -> usize
    ensures { result ≡ width (name (chars text.now)) }
{
    let mut length = word_length(text);
    let mut rest = text.split_at(length).1;
    while let Some(more) = part_length(rest) {
        length += more;
        rest = rest.split_at(more).1;
    }
    length
}

/// How many bytes a dot and the identifier directly after it take, where the text begins so.
fn part_length(text: &str) -> Option<usize>
    ensures { result ≡ part_size (chars text.now) }
{
    let behind = text.strip_prefix('.')?;
    let length = word_length(behind);
    if !is_identifier(behind.split_at(length).0) {
        return None;
    }
    Some(length + 1)
}

/// How many bytes the longest text takes that may spell a sort, from the sign `first` on. `after` is what follows.
pub(crate) fn sort_length(first: char, behind: &str) -> usize
    requires sign { first < 128 }
    requires fits { length behind.now < usize.MAX }
    ensures { result ≡ width (sort_text first (chars behind.now)) }
{
    if first == '\'' {
        return word_length(behind) + 1;
    }
    1
}
