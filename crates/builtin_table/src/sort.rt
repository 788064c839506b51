//! Kinds of arguments.
ghost use Rattle.std.specs.Prelude.{◌≡◌};
ghost use Rattle.spec_value.specs.Datum.{of_list};
ghost use Rattle.spec_moo.specs.Natives.Rows.{fits as fits_of, are_texts as are_texts_of};
ghost use Rattle.builtin_table.specs.Sorts.{sort_of, is_object as is_object_of, is_text as is_text_of, one_text, two_texts, three_texts, object_and_text, object_and_texts};

use moo_value::value::{Shown, Value};

/// What an argument of a built-in function is to be.
#[derive(Clone, Copy, PartialEq, Eq, Debug)]
pub enum Sort {
    AnyValue,
    Integer,
    Object,
    Text,
    /// A verb of an object: a word, or its place from 1.
    Verb,
    /// A list of texts.
    TextLines,
    /// `{owner, bits}`
    OwnerAndBits,
    /// `{owner, bits, names}`
    OwnerBitsNames,
    /// `{direct object, preposition, indirect object}`
    VerbSpecifier,
}

#[tactic(auto, using(crate::proofs::InTurn::owner_and_bits_fit, crate::proofs::InTurn::owner_bits_names_fit, crate::proofs::InTurn::specifier_fits))]
impl Sort {
    /// Whether a value is of this sort.
    pub fn fits(self, value: &Value) -> bool
        ensures { result ≡ fits_of (sort_of self) value.now }
    {
        match (self, value.shown()) {
            (Sort::AnyValue, _) => true,
            (Sort::Integer | Sort::Verb, Shown::Integer(_)) => true,
            (Sort::Object, Shown::Object(_)) => true,
            (Sort::Text | Sort::Verb, Shown::Text(_)) => true,
            (Sort::TextLines, Shown::List(items)) => are_texts(items),
            (Sort::OwnerAndBits, Shown::List(items)) => are_object_and_text(items),
            (Sort::OwnerBitsNames, Shown::List(items)) => are_object_and_texts(items),
            (Sort::VerbSpecifier, Shown::List(items)) => are_three_texts(items),
            _ => false,
        }
    }
}

fn is_object(value: &Value) -> bool
    ensures { result ≡ is_object_of value.now }
{
    match value.shown() {
        Shown::Object(_) => true,
        _ => false,
    }
}

fn is_text(value: &Value) -> bool
    ensures { result ≡ is_text_of value.now }
{
    match value.shown() {
        Shown::Text(_) => true,
        _ => false,
    }
}

fn are_texts(values: &[Value]) -> bool
    ensures { result ≡ are_texts_of (of_list values.now) }
{
    for value in values {
        if !is_text(value) {
            return false;
        }
    }
    true
}

fn are_object_and_text(items: &[Value]) -> bool
    ensures { result ≡ object_and_text items.now }
{
    match items.split_first() {
        Some((first, rest)) => is_object(first) && is_one_text(rest),
        None => false,
    }
}

fn are_object_and_texts(items: &[Value]) -> bool
    ensures { result ≡ object_and_texts items.now }
{
    match items.split_first() {
        Some((first, rest)) => is_object(first) && are_two_texts(rest),
        None => false,
    }
}

fn are_three_texts(items: &[Value]) -> bool
    ensures { result ≡ three_texts items.now }
{
    match items.split_first() {
        Some((first, rest)) => is_text(first) && are_two_texts(rest),
        None => false,
    }
}

fn are_two_texts(items: &[Value]) -> bool
    ensures { result ≡ two_texts items.now }
{
    match items.split_first() {
        Some((first, rest)) => is_text(first) && is_one_text(rest),
        None => false,
    }
}

fn is_one_text(items: &[Value]) -> bool
    ensures { result ≡ one_text items.now }
{
    match items.split_first() {
        Some((first, rest)) => is_text(first) && rest.is_empty(),
        None => false,
    }
}
