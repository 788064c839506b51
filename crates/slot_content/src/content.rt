//! What a slot holds.
ghost use Rattle.std.specs.Prelude.{◌≡◌, ◌↔◌, ◌<◌, length, IfOk, IsTrue, Some, None, is_none, IsSome};
ghost use Rattle.std.specs.List.{slice_get};
ghost use Rattle.slot_content.specs.Content.{shown_content};

use crate::kept::KeptValues;
use moo_value::value::{self, Value};
use std::alloc::AllocError;
use std::marker::Model;

/// What a slot holds: a value, or none where it is clear.
pub struct Content {
    node: Node,
}

#[derive(Drop)]
enum Node {
    Clear,
    Value(Value),
    // the value at this place
    Kept(u32, KeptValues),
}

// Written out, so that letting go of what it holds is proved here and not in each crate that lets a slot go.
impl Drop for Content {
    fn drop(self) {
        let Content { node: _node } = self;
    }
}

impl Model for Content {
    ghost use Rattle.std.specs.Prelude.{Option};
    ghost use Rattle.std.specs.Coded.{coded_option};
    ghost use Rattle.spec_value.specs.Datum.{Datum};
    ghost use Rattle.spec_value.specs.DatumCode.{datum_code};
    ghost use Rattle.slot_content.specs.Content.{node_content, IsThere};

    ghost Value = { Option Datum };

    ghost coded = { coded_option datum_code };

    ghost view = { λ a. node_content a.node };

    ghost invariant = { λ a. IsThere a.node };
}

/// What a slot holds, lent as it is kept.
#[derive(Clone, Copy)]
pub enum Shown<'a> {
    Clear,
    Value(&'a Value),
    /// The literal of a value.
    Literal(&'a str),
}

impl Content {
    /// Nothing.
    #[inline(always)]
    pub fn clear() -> Content
        ensures { result ≡ None }
    {
        Content { node: Node::Clear }
    }

    /// A value.
    #[inline(always)]
    pub fn value(value: Value) -> Content
        ensures { result ≡ Some value }
    {
        Content {
            node: Node::Value(value),
        }
    }

    /// A value, or nothing.
    pub fn new(value: Option<Value>) -> Content
        ensures { result ≡ value }
    {
        match value {
            Some(value) => Content::value(value),
            None => Content::clear(),
        }
    }

    /// One of some values that are kept as their literals.
    pub fn kept(values: KeptValues, place: u32) -> Content
        requires { place < length values }
        ensures { result ≡ slice_get values place }
    {
        Content {
            node: Node::Kept(place, values),
        }
    }

    /// Whether it is nothing.
    #[inline(always)]
    pub fn is_clear(&self) -> bool
        ensures { result ≡ is_none self.now }
    {
        match &self.node {
            Node::Clear => true,
            Node::Value(_) | Node::Kept(_, _) => false,
        }
    }

    /// Whether it is a value that takes memory of its own.
    pub fn is_large(&self) -> bool
        ensures { IsTrue result → IsSome self.now }
    {
        match &self.node {
            Node::Clear | Node::Kept(_, _) => false,
            Node::Value(value) => takes_memory(value),
        }
    }

    /// What it is, to match on.
    #[inline(always)]
    pub fn shown(&self) -> Shown<'_>
        ensures { shown_content result self.now }
    {
        match &self.node {
            Node::Clear => Shown::Clear,
            Node::Value(value) => Shown::Value(value),
            Node::Kept(place, values) => Shown::Literal(values.literal(*place as usize)),
        }
    }

    /// The value, if it is one.
    #[inline(always)]
    pub fn into_value(self) -> Result<Option<Value>, AllocError>
        ensures { IfOk result (λ o. o ≡ self) }
    {
        let Content { node } = self;
        match node {
            Node::Clear => Ok(None),
            Node::Value(value) => Ok(Some(value)),
            Node::Kept(place, values) => {
                let value = values.get(place as usize)?;
                Ok(Some(value))
            }
        }
    }
}

fn takes_memory(value: &Value) -> bool {
    match value.shown() {
        value::Shown::Text(_) => true,
        value::Shown::List(items) => !items.is_empty(),
        value::Shown::Integer(_) | value::Shown::Object(_) | value::Shown::Error(_) => false,
    }
}

impl Clone for Content {
    ghost is_clone = { λ content copy. copy ≡ content };

    #[inline(always)]
    fn clone(&self) -> Result<Content, AllocError> {
        let node = match &self.node {
            Node::Clear => Node::Clear,
            Node::Value(value) => Node::Value(value.clone()?),
            Node::Kept(place, values) => Node::Kept(*place, values.clone()?),
        };
        Ok(Content { node })
    }
}
