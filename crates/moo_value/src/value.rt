//! Values.
ghost use Rattle.std.specs.Prelude.{◌≡◌, ◌<◌, ◌≤◌, ◌∷◌, [], IfOk, IsTrue, min, is_ok, Some, if◌then◌else◌};
ghost use Rattle.spec_value.specs.Datum.{Datum, integer, object, text as text_of, error, list, of_list, is_value};

use crate::error::MooError;
use crate::text::Text;
use crate::{items, weigh};
use std::alloc::{AllocError, Global};
use std::marker::Model;
use std::sync::Arc;

/// A value of the language. Texts and lists are shared by their owners, so a clone is a count.
#[cycle(value)]
pub struct Value {
    node: Node,
}

#[cycle(value)]
#[derive(Drop)]
enum Node {
    Integer(i32),
    Object(i32),
    Text(Text),
    Error(MooError),
    // what the items weigh, or the greatest number where that is more, and the items; in this order they take least room
    List(u32, Arc<Vec<Value>>),
    // a list without items, which takes no memory before it has some
    Empty(Global),
}

// A value that is not shared is let go of where it stands.
impl Drop for Value {
    #[inline(always)]
    fn drop(self) {
        let Value { node } = self;
        match node {
            Node::Integer(_) | Node::Object(_) | Node::Error(_) | Node::Empty(_) => {}
            Node::Text(text) => let_go(text),
            Node::List(_, items) => let_go(items),
        }
    }
}

// One owner less.
#[inline(never)]
fn let_go<T: Drop>(shared: T) {
    let _shared = shared;
}

impl Model for Value {
    ghost use Rattle.spec_value.specs.Datum.{Datum};
    ghost use Rattle.spec_value.specs.DatumCode.{datum_code};
    ghost use Rattle.moo_value.specs.Depth.{depth};

    ghost Value = { Datum };

    ghost coded = { datum_code };

    ghost use Rattle.moo_value.specs.View.{node_datum};

    ghost view = { λ a. node_datum a.node };

    ghost use Rattle.std.specs.Prelude.{IsTrue};
    ghost use Rattle.moo_value.specs.View.{is_sound};

    ghost invariant = { λ a. IsTrue (is_sound a.node) };

    ghost size = { depth };

    ghost use Rattle.moo_value.specs.Falls.{depth_falls};

    ghost size_decreases = { λ a h. depth_falls a.node };
}

/// What a value is, with its text or items lent, to match on.
#[derive(Clone, Copy)]
pub enum Shown<'a> {
    Integer(i32),
    Object(i32),
    Text(&'a str),
    Error(MooError),
    List(&'a [Value]),
}

impl Value {
    ghost use Rattle.moo_value.specs.Errors.{code_of};
    ghost use Rattle.moo_value.specs.Shown.{shown_datum};
    ghost use Rattle.spec_value.specs.Datum.{is_true as is_true_of};
    ghost use Rattle.spec_value.specs.Answer.{count, truth as truth_of};

    /// An integer.
    pub fn integer(number: i32) -> Value
        ensures { result ≡ integer number }
    {
        Value {
            node: Node::Integer(number),
        }
    }

    /// A count, as an integer: the greatest one for what is more.
    pub fn count(number: usize) -> Value
        ensures { result ≡ count number }
    {
        match i32::try_from(number) {
            Ok(number) => Value::integer(number),
            Err(_) => Value::integer(i32::MAX),
        }
    }

    /// 1 or 0.
    pub fn truth(truth: bool) -> Value
        ensures { result ≡ truth_of truth }
    {
        Value::integer(if truth { 1 } else { 0 })
    }

    /// An object number, of an object that exists or not.
    pub fn object(number: i32) -> Value
        ensures { result ≡ object number }
    {
        Value {
            node: Node::Object(number),
        }
    }

    /// A text.
    pub fn text(text: Text) -> Value
        ensures { result ≡ text_of text }
    {
        Value {
            node: Node::Text(text),
        }
    }

    /// An error as a value.
    pub fn error(code: MooError) -> Value
        ensures { result ≡ error (code_of code) }
    {
        Value {
            node: Node::Error(code),
        }
    }

    /// A list of these items.
    #[inline(always)]
    pub fn list(items: Vec<Value>) -> Result<Value, AllocError>
        ensures { IfOk result (λ v. v ≡ list (of_list items.items)) }
    {
        if items.is_empty() {
            let alloc = *items.allocator();
            return Ok(Value {
                node: Node::Empty(alloc),
            });
        }
        Value::of_items(items)
    }

    // The same of some items.
    #[inline(never)]
    fn of_items(items: Vec<Value>) -> Result<Value, AllocError>
        ensures { IfOk result (λ v. v ≡ list (of_list items.items)) }
    {
        let alloc = *items.allocator();
        items::know_all(&items);
        let weight = items::weight(&items);
        Ok(Value {
            node: Node::List(weight, Arc::new(alloc, items)?),
        })
    }

    // A list of one item.
    #[inline(never)]
    fn of_one(alloc: Global, item: Value) -> Result<Value, AllocError>
        ensures { IfOk result (λ v. v ≡ list (of_list (item ∷ []))) }
    {
        let mut items = Vec::new(alloc);
        items.push(item)?;
        Value::list(items)
    }

    /// What the value is, to match on.
    #[inline(always)]
    pub fn shown(&self) -> Shown<'_>
        ensures { shown_datum result ≡ self.now }
    {
        match &self.node {
            Node::Integer(number) => Shown::Integer(*number),
            Node::Object(number) => Shown::Object(*number),
            Node::Text(text) => Shown::Text(text.as_str()),
            Node::Error(code) => Shown::Error(*code),
            Node::List(_, items) => Shown::List(items.as_slice()),
            Node::Empty(_) => Shown::List(&[]),
        }
    }

    /// Whether the value counts as true: a nonzero integer, a nonempty text or a nonempty list.
    pub fn is_true(&self) -> bool
        ensures { result ≡ is_true_of self.now }
    {
        match self.shown() {
            Shown::Integer(number) => number != 0,
            Shown::Text(text) => !text.is_empty(),
            Shown::List(items) => !items.is_empty(),
            Shown::Object(_) | Shown::Error(_) => false,
        }
    }

    /// What is known of every value: its numbers and characters are in their ranges.
    pub fn know(&self)
        ensures { IsTrue (is_value self.now) }
    {
        let _node = &self.node;
    }
}

impl Value {
    ghost use Rattle.spec_value.specs.Datum.{weight};

    /// What the value weighs, or the greatest number where that is more. A list keeps it, and is counted anew only where it weighs more than
    /// fits into 32 bits.
    #[inline(always)]
    pub fn weight(&self) -> usize
        ensures { result ≡ min (weight self.now) usize.MAX }
    {
        let kept = self.kept_weight();
        if kept < u32::MAX {
            kept as usize
        } else {
            weigh::counted(self)
        }
    }

    // The same in 32 bits.
    #[inline(always)]
    pub(crate) fn kept_weight(&self) -> u32
        ensures { result ≡ min (weight self.now) u32.MAX }
    {
        match &self.node {
            Node::Integer(_) | Node::Object(_) | Node::Error(_) | Node::Empty(_) => 1,
            Node::Text(text) => match u32::try_from(text.len()) {
                Ok(length) => length.saturating_add(1),
                Err(_) => u32::MAX,
            },
            Node::List(weight, _) => weight.saturating_add(1),
        }
    }
}

impl Value {
    ghost use Rattle.moo_value.specs.Appended.{text_appended};
    ghost use Rattle.spec_value.specs.Places.{length_of_list, list_item, list_with, list_inserted, list_without, list_appended};

    /// Puts an item at the end of a list, in place where no other owner shares the list. Another kind of value stays.
    #[inline(always)]
    pub fn push(&mut self, item: Value) -> Result<(), AllocError>
        ensures { self.new ≡ (if is_ok result then list_appended self.old item else self.old) }
    {
        item.know();
        let added = item.kept_weight();
        match &mut self.node {
            Node::List(weight, items) => {
                items::push(items, item)?;
                *weight = weight.saturating_add(added);
                Ok(())
            }
            Node::Empty(alloc) => {
                *self = Value::of_one(*alloc, item)?;
                Ok(())
            }
            _ => Ok(()),
        }
    }

    /// Puts the characters of a text behind those of this one, in place where no other owner shares it. Another kind of value stays.
    #[inline(always)]
    pub fn push_text(&mut self, more: &Value) -> Result<(), AllocError>
        ensures { self.new ≡ (if is_ok result then text_appended self.old more.now else self.old) }
    {
        let Node::Text(more) = &more.node else {
            return Ok(());
        };
        more.know();
        match &mut self.node {
            Node::Text(text) => {
                let pushed = text.push_str(more.as_str());
                text.know();
                pushed
            }
            _ => Ok(()),
        }
    }

    /// Puts another item in a place of a list and gives the one that was there, in place where no other owner shares the list.
    pub fn replace(&mut self, place: usize, item: Value) -> Result<Value, AllocError>
        requires { place < length_of_list self.old }
        ensures after { self.new ≡ (if is_ok result then list_with self.old place item else self.old) }
        ensures item { IfOk result (λ v. list_item self.old place ≡ Some v) }
    {
        item.know();
        let added = item.kept_weight();
        let Node::List(weight, items) = &mut self.node else {
            return Ok(item);
        };
        let others = items::weight_without(items, *weight, place);
        let taken = items::replace(items, place, item)?;
        *weight = others.saturating_add(added);
        Ok(taken)
    }

    /// Puts an item into a list before a place, or at its end, in place where no other owner shares the list.
    pub fn insert(&mut self, place: usize, item: Value) -> Result<(), AllocError>
        requires { place ≤ length_of_list self.old }
        ensures { self.new ≡ (if is_ok result then list_inserted self.old place item else self.old) }
    {
        item.know();
        let added = item.kept_weight();
        match &mut self.node {
            Node::List(weight, items) => {
                items::insert(items, place, item)?;
                *weight = weight.saturating_add(added);
                Ok(())
            }
            Node::Empty(alloc) => {
                *self = Value::of_one(*alloc, item)?;
                Ok(())
            }
            _ => Ok(()),
        }
    }

    /// Takes an item out of a list, in place where no other owner shares the list.
    pub fn remove(&mut self, place: usize) -> Result<Value, AllocError>
        requires { place < length_of_list self.old }
        ensures after { self.new ≡ (if is_ok result then list_without self.old place else self.old) }
        ensures item { IfOk result (λ v. list_item self.old place ≡ Some v) }
    {
        let Node::List(weight, items) = &mut self.node else {
            return Ok(Value::integer(0));
        };
        let others = items::weight_without(items, *weight, place);
        let taken = items::remove(items, place)?;
        *weight = others;
        Ok(taken)
    }
}

impl Value {
    ghost use Rattle.spec_value.specs.Places.{length_of_list};
    ghost use Rattle.moo_value.specs.Parts.{list_with_part};

    /// Puts copies of items in the place of a part of a list: what lies before the start, then those items, then what lies from the end on. It is
    /// done in place where no other owner shares the list and the part does not end before it starts.
    pub fn replace_part(
        &mut self,
        start: usize,
        end: usize,
        between: &[Value],
    ) -> Result<(), AllocError>
        requires starts { start ≤ length_of_list self.old }
        requires ends { end ≤ length_of_list self.old }
        ensures { self.new ≡ (if is_ok result then list_with_part self.old start end (of_list between.now) else self.old) }
    {
        items::know_all(between);
        let added = items::weight(between);
        match &mut self.node {
            Node::List(weight, items) => {
                let others = items::weight_around(items, *weight, start, end);
                items::replace_part(items, start, end, between)?;
                *weight = others.saturating_add(added);
                Ok(())
            }
            Node::Empty(alloc) => {
                *self = Value::list(items::copied(*alloc, between)?)?;
                Ok(())
            }
            _ => Ok(()),
        }
    }
}

impl Value {
    ghost use Rattle.std.specs.Prelude.{List, ℕ, None, IfSome, IfErr};
    ghost use Rattle.spec_value.specs.Datum.{Data, to_list};

    /// The text, where the value is one. It is lent: who keeps it counts one owner more and copies no character.
    pub fn as_text(&self) -> Option<&Text>
        ensures some { IfSome result (λ t. self.now ≡ text_of t.now) }
        ensures none { result ≡ None → (t : List ℕ) → self.now ≡ text_of t → ⊥ }
    {
        match &self.node {
            Node::Text(text) => Some(text),
            _ => None,
        }
    }

    /// The text that the value is, moved out of it with no count; a value of another kind is given back.
    pub fn into_text(self) -> Result<Text, Value>
        ensures ok { IfOk result (λ t. self ≡ text_of t) }
        ensures err { IfErr result (λ v. v ≡ self × ((t : List ℕ) → self ≡ text_of t → ⊥)) }
    {
        let Value { node } = self;
        match node {
            Node::Text(text) => Ok(text),
            other => Err(Value { node: other }),
        }
    }

    /// The items of a list, taken out of it where no other owner shares them, else copies; of another value there are none.
    pub fn into_items(self, alloc: Global) -> Result<Vec<Value>, AllocError>
        ensures { IfOk result (λ items. (args : Data) → self ≡ list args → items.items ≡ to_list args) }
    {
        let Value { node } = self;
        match node {
            Node::List(_, items) => items::taken(alloc, items),
            _ => Ok(Vec::new(alloc)),
        }
    }
}

impl Clone for Value {
    ghost is_clone = { λ v copy. copy ≡ v };

    // What is asked for most is done in place.
    #[inline(always)]
    fn clone(&self) -> Result<Value, AllocError> {
        match &self.node {
            Node::Integer(number) => Ok(Value::integer(*number)),
            Node::Object(number) => Ok(Value::object(*number)),
            Node::Text(text) => Ok(Value::text(text.clone()?)),
            _ => self.another_owner(),
        }
    }
}

impl Value {
    // The same of every value.
    #[inline(never)]
    fn another_owner(&self) -> Result<Value, AllocError>
        ensures { IfOk result (λ copy. copy ≡ self.now) }
    {
        let node = match &self.node {
            Node::Integer(number) => Node::Integer(*number),
            Node::Object(number) => Node::Object(*number),
            Node::Text(text) => Node::Text(text.clone()?),
            Node::Error(code) => Node::Error(*code),
            Node::List(weight, items) => Node::List(*weight, items.clone()?),
            Node::Empty(alloc) => Node::Empty(*alloc),
        };
        Ok(Value { node })
    }
}
