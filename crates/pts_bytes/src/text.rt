// Bytes that are text.

ghost use Rattle.std.specs.Prelude.{◌≡◌, true, false, MatchOption};
ghost use Rattle.std.specs.Str.{is_utf8};
ghost use Rattle.pts_names.specs.Name.{same_name};

/// The text that the bytes are, where they are UTF-8.
pub fn text_of(bytes: &[u8]) -> Option<&str>
    ensures { MatchOption result (is_utf8 bytes.now ≡ false) (λ text. (is_utf8 bytes.now ≡ true) × (text.now ≡ bytes.now)) }
{
    match str::from_utf8(bytes) {
        Ok(text) => Some(text),
        Err(_) => None,
    }
}

/// Whether the bytes are those of the text.
#[tactic(auto, using(crate::proofs::Same::same_bytes))]
pub fn is_text(bytes: &[u8], text: &str) -> bool
    ensures { result ≡ same_name bytes.now text.now }
{
    bytes == text.as_bytes()
}
