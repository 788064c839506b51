//! Texts of bits.
ghost use Rattle.std.specs.Prelude.{◌≡◌, ◌==◌, [], ◌∷◌};
ghost use Rattle.std.specs.List.{list_any};
ghost use Rattle.spec_moo.specs.Natives.Properties.{are_bits as are_bits_of, has_bit as has_bit_of};

/// Whether a text has letters of these alone, in any order.
pub fn are_bits(letters: &[u8], bits: &[u8]) -> bool
    ensures { result ≡ are_bits_of letters.now bits.now }
{
    for bit in bits {
        if !is_among(letters, *bit) {
            return false;
        }
    }
    true
}

/// Whether a text has a letter.
pub fn has_bit(letter: u8, bits: &[u8]) -> bool
    ensures { result ≡ has_bit_of (letter ∷ []) bits.now }
{
    for bit in bits {
        if letter == *bit {
            return true;
        }
    }
    false
}

fn is_among(letters: &[u8], bit: u8) -> bool
    ensures { result ≡ list_any (λ d. d == bit) letters.now }
{
    for letter in letters {
        if *letter == bit {
            return true;
        }
    }
    false
}
