//! Lists as values.
ghost use Rattle.std.specs.Prelude.{◌≡◌, IfOk};
ghost use Rattle.spec_moo.specs.Natives.Rows.{list_value};
ghost use Rattle.spec_moo.specs.Natives.Objects.{as_objects};
ghost use Rattle.spec_moo.specs.Natives.Properties.{as_texts};

use moo_value::text::Text;
use moo_value::value::Value;
use std::alloc::{AllocError, Global};

/// A list of objects.
pub fn objects_value(alloc: Global, objects: &[i32]) -> Result<Value, AllocError>
    ensures { IfOk result (λ v. v ≡ list_value (as_objects objects.now)) }
{
    let mut items = Vec::with_capacity(alloc, objects.len())?;
    for object in objects {
        items.push(Value::object(*object))?;
    }
    Value::list(items)
}

/// A list of texts.
pub fn texts_value(alloc: Global, texts: &[Text]) -> Result<Value, AllocError>
    ensures { IfOk result (λ v. v ≡ list_value (as_texts texts.now)) }
{
    let mut items = Vec::with_capacity(alloc, texts.len())?;
    for text in texts {
        items.push(Value::text(text.clone()?))?;
    }
    Value::list(items)
}
