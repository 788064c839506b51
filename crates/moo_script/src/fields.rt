//! The fields of a line, which stand one space apart.
ghost use Rattle.std.specs.Prelude.{◌≡◌, ◌++◌, ◌==◌, ℕ, List, ◌∷◌, not, IsTrue, MatchOption, position};
ghost use Rattle.std.specs.List.{list_all};
ghost use Rattle.moo_script.specs.Lines.{is_field as is_field_of};

/// Whether these bytes are a field: some, and no space among them.
pub fn is_field(bytes: &[u8]) -> bool
    ensures { result ≡ is_field_of bytes.now }
{
    !bytes.is_empty() && has_no_space(bytes)
}

fn has_no_space(bytes: &[u8]) -> bool
    ensures { result ≡ list_all (λ b. not (b == 32)) bytes.now }
{
    bytes.iter().all(|byte| *byte != b' ')
}

/// The first field of a line, and what stands behind its space.
#[tactic(auto, using(crate::proofs::Spaces::no_space, crate::proofs::Spaces::space_first))]
pub fn split_field(bytes: &[u8]) -> Option<(&[u8], &[u8])>
    ensures { MatchOption result ((field rest : List ℕ) → IsTrue (is_field_of field) → bytes.now ≡ field ++ 32 ∷ rest → ⊥)
        (λ p. IsTrue (is_field_of p.0.now) × (bytes.now ≡ p.0.now ++ 32 ∷ p.1.now)) }
{
    let Some(at) = find_space(bytes) else {
        return None;
    };
    if at == 0 {
        return None;
    }
    Some((&bytes[..at], &bytes[at + 1..]))
}

// Where the first space stands.
fn find_space(bytes: &[u8]) -> Option<usize>
    ensures { result ≡ position (λ b. b == 32) bytes.now }
{
    bytes.iter().position(|byte| *byte == b' ')
}
