//! Words that are known in lower case.
ghost use Rattle.std.specs.Prelude.{◌≡◌};
ghost use Rattle.spec_value.specs.Datum.{fold_case, same_text};

/// Whether a word is one in lower case, its own case ignored.
pub fn is_word(word: &[u8], lower: &[u8]) -> bool
    ensures { result ≡ same_text lower.now (fold_case word.now) }
{
    if word.len() != lower.len() {
        return false;
    }
    for (index, byte) in word.iter().enumerate() {
        if byte.to_ascii_lowercase() != lower[index] {
            return false;
        }
    }
    true
}
