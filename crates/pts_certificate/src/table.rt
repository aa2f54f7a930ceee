ghost use Rattle.std.specs.Prelude.{◌≡◌, map};
ghost use Rattle.pts_certificate.specs.Rows.{row_of};

use pts_bytes::is_text;

/// The value beside the first equal word of a table.
pub(crate) fn row_of<T: Copy>(rows: &[(&str, T)], word: &[u8]) -> Option<T>
    ensures { result ≡ row_of (map (λ row. (row.0.now, row.1)) rows.now) word.now }
{
    for (name, value) in rows {
        if is_text(word, name) {
            return Some(*value);
        }
    }
    None
}
