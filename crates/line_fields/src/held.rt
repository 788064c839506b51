//! Values as fields write them, and what is made of those of one kind.
ghost use Rattle.std.specs.Prelude.{◌≡◌, ℤ, List, ◌∷◌, Some, IsTrue, IfOk, MatchOption, is_some};
ghost use Rattle.spec_value.specs.Datum as datum;
ghost use Rattle.spec_value.specs.Datum.{Datum, is_text};
ghost use Rattle.spec_value.specs.Literal as text_of;
ghost use Rattle.spec_world.specs.Checkpoint.{object_list, text_list};
ghost use Rattle.spec_faults.specs.Literals.{value_of, is_string, is_object_value, is_list_of};
ghost use Rattle.line_fields.specs.Said.{string_in};
ghost use Rattle.line_fields.specs.Values.{is_readable};

use crate::quoted::front_text;
use crate::spelled::front_value;
use moo_value::read::NESTING_LIMIT;
use moo_value::text::Text;
use moo_value::value::{Shown, Value};
use std::alloc::{AllocError, Global};

/// The value whose literal the text is.
pub fn literal(alloc: Global, text: &[u8]) -> Result<Option<Value>, AllocError>
    ensures reads { (v : Datum) → IsTrue (is_readable v) → text.now ≡ text_of.literal v → IfOk result (λ o. o ≡ Some v) }
    ensures fault { IfOk result (λ o. o ≡ value_of text.now) }
{
    let Some((value, rest)) = front_value(alloc, text, NESTING_LIMIT)? else {
        return Ok(None);
    };
    if rest.is_empty() {
        value.know();
        Ok(Some(value))
    } else {
        Ok(None)
    }
}

/// The text whose literal this is.
pub fn text_literal(alloc: Global, text: &[u8]) -> Result<Option<Text>, AllocError>
    ensures reads { (t : datum.Text) → IsTrue (is_text t) → text.now ≡ text_of.literal (datum.text t) → IfOk result (λ o. o ≡ Some t) }
    ensures fault { IfOk result (λ o. o ≡ string_in (value_of text.now)) }
{
    let Some(behind) = behind_quote(text) else {
        return Ok(None);
    };
    let Some((found, rest)) = front_text(alloc, behind)? else {
        return Ok(None);
    };
    if rest.is_empty() {
        found.know();
        Ok(Some(found))
    } else {
        Ok(None)
    }
}

// What stands behind the quote that a text begins with.
fn behind_quote(text: &[u8]) -> Option<&[u8]>
    ensures { MatchOption result ((t : datum.Text) → text.now ≡ 34 ∷ t → ⊥) (λ behind. text.now ≡ 34 ∷ behind.now) }
{
    match text {
        [b'"', behind @ ..] => Some(behind),
        _ => None,
    }
}

/// The object number that a value is.
pub fn object_in(value: &Value) -> Option<i32>
    ensures reads { MatchOption result ((z : ℤ) → value.now ≡ datum.object z → ⊥) (λ z. value.now ≡ datum.object z) }
{
    match value.shown() {
        Shown::Object(number) => Some(number),
        _ => None,
    }
}

/// The text that a value is.
pub fn text_in(alloc: Global, value: &Value) -> Result<Option<Text>, AllocError>
    ensures reads { IfOk result (λ o. MatchOption o ((t : datum.Text) → value.now ≡ datum.text t → ⊥) (λ t. value.now ≡ datum.text t)) }
{
    value.know();
    match value.shown() {
        Shown::Text(text) => Ok(Some(Text::from_str(alloc, text)?)),
        _ => Ok(None),
    }
}

/// The items of the list that a value is.
pub fn items_in(value: &Value) -> Option<&[Value]>
    ensures reads { MatchOption result ((xs : datum.Data) → value.now ≡ datum.list xs → ⊥) (λ items. value.now ≡ datum.list (datum.of_list items.now)) }
{
    match value.shown() {
        Shown::List(items) => Some(items),
        _ => None,
    }
}

/// The objects that a list holds, and nothing else.
pub fn objects_in(alloc: Global, value: &Value) -> Result<Option<Vec<i32>>, AllocError>
    ensures reads { (os : List ℤ) → value.now ≡ datum.list (datum.of_list (object_list os)) → IfOk result (λ o. MatchOption o ⊥ (λ v. v.items ≡ os)) }
    ensures fault { IfOk result (λ o. is_some o ≡ is_list_of is_object_value value.now) }
{
    let Some(items) = items_in(value) else {
        return Ok(None);
    };
    let mut objects = Vec::with_capacity(alloc, items.len())?;
    for item in items {
        item.know();
        match object_in(item) {
            Some(object) => objects.push(object)?,
            None => return Ok(None),
        }
    }
    Ok(Some(objects))
}

/// The texts that a list holds, and nothing else.
pub fn texts_in(alloc: Global, value: &Value) -> Result<Option<Vec<Text>>, AllocError>
    ensures reads { (ts : List datum.Text) → value.now ≡ datum.list (datum.of_list (text_list ts)) → IfOk result (λ o. MatchOption o ⊥ (λ v. v.items ≡ ts)) }
    ensures fault { IfOk result (λ o. is_some o ≡ is_list_of is_string value.now) }
{
    let Some(items) = items_in(value) else {
        return Ok(None);
    };
    let mut texts = Vec::with_capacity(alloc, items.len())?;
    for item in items {
        match text_in(alloc, item)? {
            Some(text) => texts.push(text)?,
            None => return Ok(None),
        }
    }
    Ok(Some(texts))
}
