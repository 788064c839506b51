//! The loops around a statement, by their names.
ghost use Rattle.std.specs.Prelude.{◌≡◌, ◌||◌, ◌∷◌, Some, IfOk};
ghost use Rattle.spec_value.specs.Datum.{same_text};
ghost use Rattle.spec_program.specs.ReadPrograms as reading;
ghost use Rattle.spec_program.specs.Trees as spec;

use moo_value::text::Text;
use std::alloc::{AllocError, Global};

/// Whether a `break` or `continue` with this name, or with none, means one of the loops around it.
pub fn is_around(loops: &[Option<Text>], name: &Option<Text>) -> bool
    ensures { result ≡ spec.is_around loops.now name.now }
{
    for own in loops {
        if means(name, own) {
            return true;
        }
    }
    false
}

// No name means any loop.
fn means(name: &Option<Text>, own: &Option<Text>) -> bool
    ensures { result ≡ (reading.names_none name.now || reading.same_name name.now own.now) }
{
    match name {
        Some(text) => is_own(text, own),
        None => true,
    }
}

fn is_own(text: &Text, own: &Option<Text>) -> bool
    ensures { result ≡ reading.same_name (Some text.now) own.now }
{
    match own {
        Some(other) => are_same(text, other),
        None => false,
    }
}

fn are_same(text: &Text, other: &Text) -> bool
    ensures { result ≡ same_text text.now other.now }
{
    text.as_str() == other.as_str()
}

/// The names of the loops around the body of a loop of this name, the innermost first.
pub fn within(
    alloc: Global,
    loops: &[Option<Text>],
    name: Option<Text>,
) -> Result<Vec<Option<Text>>, AllocError>
    ensures { IfOk result (λ inner. inner.items ≡ name ∷ loops.now) }
{
    let mut inner = Vec::with_capacity(alloc, loops.len().saturating_add(1))?;
    inner.push(name)?;
    for own in loops {
        inner.push(copy(own)?)?;
    }
    Ok(inner)
}

/// Another owner of a name.
pub fn copy(name: &Option<Text>) -> Result<Option<Text>, AllocError>
    ensures { IfOk result (λ copy. copy ≡ name.now) }
{
    match name {
        Some(text) => Ok(Some(text.clone()?)),
        None => Ok(None),
    }
}
