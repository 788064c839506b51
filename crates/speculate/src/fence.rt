//! Tables of objects.
ghost use Rattle.std.specs.Prelude.{◌≡◌, ◌<◌, ◌⊎◌, ℤ, pos, true, false, None, Contains, IsTrue, IfOk, IfSome, length, replicate, slice_get, Some};
ghost use Rattle.speculate.specs.Tables.{IsThere, Grows};

use std::alloc::{AllocError, Global};
use std::marker::Model;

/// Some of the objects that have numbers below a count.
#[derive(Drop)]
pub(crate) struct Objects {
    // Whether each number is one of them, and each of them.
    there: Vec<bool>,
    all: Vec<i32>,
}

impl Model for Objects {
    ghost use Rattle.std.specs.Prelude.{ℤ, List, Bool, Contains};
    ghost use Rattle.speculate.specs.Tables.{IsThere};

    ghost Value = { List Bool };

    ghost view = { λ a. a.there.items };

    ghost invariant = { λ a. (o : ℤ) → IsThere a.there.items o → Contains a.all.items o };
}

impl Objects {
    /// None of so many.
    pub(crate) fn none(alloc: Global, count: usize) -> Result<Objects, AllocError>
        ensures { IfOk result (λ t. t ≡ replicate count false) }
    {
        let there = vec![in alloc; false; count]?;
        Ok(Objects {
            there,
            all: Vec::new(alloc),
        })
    }

    /// One more; false where it has no number below the count, and after want of memory.
    #[inline(always)]
    pub(crate) fn add(&mut self, object: i32) -> bool
        ensures grows { Grows self.old self.new }
        ensures there { IsTrue result → IsThere self.new object }
    {
        let Some(at) = place_of(&self.there, object) else {
            return false;
        };
        if is_set(&self.there, at) {
            return true;
        }
        if !keep(&mut self.all, object) {
            return false;
        }
        set(&mut self.there, at);
        true
    }

    // Whether an object is one of them.
    #[inline(always)]
    fn has(&self, object: i32) -> bool
        ensures { IsThere self.now object → IsTrue result }
    {
        match place_of(&self.there, object) {
            Some(at) => is_set(&self.there, at),
            None => false,
        }
    }

    /// Whether none of these is one of the others.
    pub(crate) fn are_apart(&self, others: &Objects) -> bool
        ensures { IsTrue result → (o : ℤ) → IsThere self.now o → IsThere others.now o → ⊥ }
    {
        are_free(self.all.as_slice(), others)
    }
}

// Whether none of the objects is one of a table.
fn are_free(objects: &[i32], table: &Objects) -> bool
    ensures { IsTrue result → (o : ℤ) → Contains objects.now o → IsThere table.now o → ⊥ }
{
    'at: for at in 0..objects.len() {
        if !is_free(objects, at, table) {
            return false;
        }
    }
    true
}

// The same of the object at a place.
#[inline(always)]
fn is_free(objects: &[i32], at: usize, table: &Objects) -> bool
    ensures { IsTrue result → (o : ℤ) → slice_get objects.now at ≡ Some o → IsThere table.now o → ⊥ }
{
    match objects.get(at) {
        Some(object) => !table.has(*object),
        None => true,
    }
}

// The place of an object in a table.
#[inline(always)]
fn place_of(table: &Vec<bool>, object: i32) -> Option<usize>
    ensures some { IfSome result (λ at. (at < length table.now.items) × (object ≡ pos at)) }
    ensures none { result ≡ None → IsThere table.now.items object → ⊥ }
{
    if object < 0 {
        return None;
    }
    let at = object as usize;
    if at < table.len() { Some(at) } else { None }
}

// An object more, by its place.
#[inline(always)]
fn set(table: &mut Vec<bool>, at: usize)
    requires { at < length table.old.items }
    ensures grows { Grows table.old.items table.new.items }
    ensures there { slice_get table.new.items at ≡ Some true }
    ensures only { (o : ℤ) → IsThere table.new.items o → (o ≡ pos at) ⊎ IsThere table.old.items o }
{
    table[at] = true;
}

// Whether an object is there, by its place.
#[inline(always)]
fn is_set(table: &Vec<bool>, at: usize) -> bool
    ensures found { slice_get table.now.items at ≡ Some true → IsTrue result }
    ensures there { IsTrue result → slice_get table.now.items at ≡ Some true }
{
    match table.get(at) {
        Some(there) => *there,
        None => false,
    }
}

// An object more, if there is memory for it.
#[inline(never)]
fn keep(objects: &mut Vec<i32>, object: i32) -> bool
    ensures there { IsTrue result → Contains objects.new.items object }
    ensures stays { (o : ℤ) → Contains objects.old.items o → Contains objects.new.items o }
{
    objects.push(object).is_ok()
}
