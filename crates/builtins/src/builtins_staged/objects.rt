//! Objects as arguments.
ghost use Rattle.std.specs.Prelude.{◌≡◌, ◌∷◌, [], IfOk};
ghost use Rattle.spec_value.specs.Datum.{object as object_of};

use moo_value::value::Value;
use std::alloc::{AllocError, Global};

/// One object.
pub fn one(alloc: Global, first: i32) -> Result<Vec<Value>, AllocError>
    ensures { IfOk result (λ vs. vs.items ≡ object_of first ∷ []) }
{
    let items = vec![in alloc; Value::object(first)]?;
    Ok(items)
}

/// Two objects.
pub fn two(alloc: Global, first: i32, second: i32) -> Result<Vec<Value>, AllocError>
    ensures { IfOk result (λ vs. vs.items ≡ object_of first ∷ object_of second ∷ []) }
{
    let items = vec![in alloc; Value::object(first), Value::object(second)]?;
    Ok(items)
}

/// Three objects.
pub fn three(alloc: Global, first: i32, second: i32, third: i32) -> Result<Vec<Value>, AllocError>
    ensures { IfOk result (λ vs. vs.items ≡ object_of first ∷ object_of second ∷ object_of third ∷ []) }
{
    let items = vec![in alloc;
        Value::object(first),
        Value::object(second),
        Value::object(third),
    ]?;
    Ok(items)
}
