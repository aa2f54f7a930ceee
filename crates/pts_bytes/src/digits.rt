// Numbers in decimal digits.

ghost use Rattle.std.specs.Prelude.{◌≡◌, ◌≤◌, ◌^◌, IfSome};
ghost use Rattle.pts_bytes.specs.Digits as digits;

/// Whether the word is decimal digits, at least one.
pub fn is_digits(word: &[u8]) -> bool
    ensures { result ≡ digits.is_digits word.now }
{
    for byte in word {
        if *byte < b'0' || *byte > b'9' {
            return false;
        }
    }
    !word.is_empty()
}

/// The number that digits write, where it has no leading zero and is at most the limit, which is at most 2^60. Callers
/// ask `is_digits` first: of another byte no value is meant.
pub fn number_up_to(limit: u64, word: &[u8]) -> Option<u64>
    requires small { limit ≤ 2 ^ 60 }
    ensures number { result ≡ digits.number_up_to limit word.now }
    ensures within { IfSome result (λ n. n ≤ limit) }
{
    if word.len() > 1 && word[0] == b'0' {
        return None;
    }
    let mut value: u64 = 0;
    for digit in word {
        value = value * 10 + u64::from(digit.saturating_sub(b'0'));
        if value > limit {
            return None;
        }
    }
    Some(value)
}
