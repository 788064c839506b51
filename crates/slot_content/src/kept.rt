//! Values that are kept as their literals.
ghost use Rattle.std.specs.Prelude.{◌≡◌, ◌<◌, ◌≤◌, ◌+◌, ◌++◌, [], take, length, string_bytes, IfOk, IfSome, OnOk, Some, IsTrue};
ghost use Rattle.std.specs.List.{slice_get, list_all};
ghost use Rattle.spec_value.specs.Datum.{is_text, is_value};
ghost use Rattle.spec_value.specs.Literal.{literal};
ghost use Rattle.spec_world.specs.Checkpoint.{list_literal};
ghost use Rattle.slot_content.specs.Kept.{literals, marks, IsKept};

use crate::writing::put_value;
use boxcar::slot::{OnceSlot, SlotRule};
use boxcar::tag::{Names, Tag};
use line_fields::held::literal;
use moo_value::text::{back, front};
use moo_value::value::Value;
use std::alloc::{AllocError, Global};
use std::marker::Model;
use std::snapshot::Snapshot;
use std::sync::Arc;

// Literals of fewer characters take less memory than what is kept beside them.
const FEW: usize = 128;

/// Values: their literals, one behind the other, shared by their owners, and with them, from when one is first asked for, the values. A clone is a count.
pub struct KeptValues {
    kept: Arc<Kept>,
}

/// What is kept of some values.
#[derive(Drop)]
pub struct Kept {
    /// Their literals, one behind the other.
    pub text: String,
    /// Where each literal starts, and where the last ends.
    pub marks: Vec<u32>,
    /// The values.
    pub values: Snapshot<Vec<Value>>,
    /// The values, if one was asked for.
    pub read: OnceSlot<Vec<Value>, OfLiterals>,
}

/// Values are those whose literals a text has.
pub struct OfLiterals;

impl SlotRule<Vec<Value>> for OfLiterals {
    ghost use Rattle.slot_content.specs.Kept.{AreOf};

    ghost holds = { λ t v. AreOf t v.items };
}

struct Named;

impl Names<Vec<Value>> for Named {
    ghost numbers = { λ v. list_literal v.items };
}

// Written out, so that letting go of all that is kept is proved here and not in each crate that lets a value go.
impl Drop for KeptValues {
    fn drop(self) {
        let KeptValues { kept: _kept } = self;
    }
}

impl Model for KeptValues {
    ghost use Rattle.std.specs.Prelude.{List};
    ghost use Rattle.std.specs.Coded.{coded_list};
    ghost use Rattle.std.specs.Arc.{arc_value};
    ghost use Rattle.spec_value.specs.Datum.{Datum};
    ghost use Rattle.spec_value.specs.DatumCode.{datum_code};
    ghost use Rattle.slot_content.specs.Kept.{IsKept};

    ghost Value = { List Datum };

    ghost coded = { coded_list datum_code };

    ghost view = { λ a. (arc_value a.kept).values.value.items };

    ghost invariant = { λ a. IsKept (arc_value a.kept) };
}

impl KeptValues {
    /// These values. `None` where that would take no less memory than they do themselves, and where their literals are longer than a number of 32 bits counts.
    pub fn of(alloc: Global, values: &Vec<Value>) -> Result<Option<KeptValues>, AllocError>
        ensures { IfOk result (λ o. IfSome o (λ k. k ≡ values.now.items)) }
    {
        let Some((text, marks)) = written(alloc, values)? else {
            return Ok(None);
        };
        if text.len() < FEW {
            return Ok(None);
        }
        know_all(values);
        let read = OnceSlot::new(&Tag::of::<Vec<Value>, Named>(values));
        let values = Snapshot::of(values);
        let kept = Arc::new(
            alloc,
            Kept {
                text,
                marks,
                values,
                read,
            },
        )?;
        Ok(Some(KeptValues { kept }))
    }

    /// How many they are.
    pub fn len(&self) -> usize
        ensures { result ≡ length self.now }
    {
        self.kept.marks.len() - 1
    }

    /// The literal of a value.
    pub fn literal(&self, place: usize) -> &str
        requires { place < length self.now }
        ensures { IfSome (slice_get self.now place) (λ v. (result.now ≡ literal v) × IsTrue (is_value v)) }
    {
        piece(&self.kept, place)
    }

    /// A value. Who asks first reads all of them.
    #[inline(always)]
    pub fn get(&self, place: usize) -> Result<Value, AllocError>
        requires { place < length self.now }
        ensures { IfOk result (λ v. slice_get self.now place ≡ Some v) }
    {
        match self.kept.read.get() {
            Some(values) => values[place].clone(),
            None => self.first(place),
        }
    }

    // A value, and all are kept as values, unless another thread keeps them.
    #[cold]
    #[inline(never)]
    fn first(&self, place: usize) -> Result<Value, AllocError>
        requires { place < length self.now }
        ensures { IfOk result (λ v. slice_get self.now place ≡ Some v) }
    {
        let values = self.all()?;
        let value = values[place].clone()?;
        let _kept = self.kept.read.set(values);
        Ok(value)
    }

    // All values, read in their literals.
    #[tactic(auto, using(crate::proofs::Pieces::take_found))]
    fn all(&self) -> Result<Vec<Value>, AllocError>
        ensures { IfOk result (λ v. v.items ≡ self.now) }
    {
        let alloc = *self.kept.text.allocator();
        let count = self.len();
        let mut values = Vec::with_capacity(alloc, count)?;
        for place in 0..count {
            let value = self.one(alloc, place)?;
            values.push(value)?;
        }
        Ok(values)
    }

    // A value, read in its literal.
    fn one(&self, alloc: Global, place: usize) -> Result<Value, AllocError>
        requires { place < length self.now }
        ensures { IfOk result (λ v. slice_get self.now place ≡ Some v) }
    {
        let found = literal(alloc, self.literal(place).as_bytes())?;
        match found {
            Some(value) => {
                value.know();
                Ok(value)
            }
            None => Err(AllocError),
        }
    }
}

impl Clone for KeptValues {
    ghost is_clone = { λ values copy. copy ≡ values };

    fn clone(&self) -> Result<KeptValues, AllocError> {
        let kept = self.kept.clone()?;
        Ok(KeptValues { kept })
    }
}

// The literal of one of the values that are kept.
fn piece(kept: &Kept, place: usize) -> &str
    requires kept { IsKept kept.now }
    requires place { place < length kept.now.values.value.items }
    ensures { IfSome (slice_get kept.now.values.value.items place) (λ v. (result.now ≡ literal v) × IsTrue (is_value v)) }
{
    let start = kept.marks[place] as usize;
    let end = kept.marks[place + 1] as usize;
    back(front(kept.text.as_str(), end), start)
}

// The literals of values, one behind the other, and where each starts and the last ends.
#[tactic(auto, using(crate::proofs::Pieces::literals_next, crate::proofs::Pieces::marks_next))]
fn written(alloc: Global, values: &[Value]) -> Result<Option<(String, Vec<u32>)>, AllocError>
    ensures { IfOk result (λ o. IfSome o (λ p. (string_bytes p.0 ≡ literals values.now) × (p.1.items ≡ marks 0 values.now))) }
{
    let mut text = String::new(alloc);
    let mut ends = Vec::with_capacity(alloc, values.len().saturating_add(1))?;
    ends.push(0)?;
    for value in values {
        put_value(&mut text, value)?;
        let Ok(end) = u32::try_from(text.len()) else {
            return Ok(None);
        };
        ends.push(end)?;
    }
    let text = String::from_str(alloc, text.as_str())?;
    Ok(Some((text, ends)))
}

// Each is a value.
#[tactic(auto, using(crate::proofs::Pieces::values_next))]
fn know_all(values: &[Value])
    ensures { IsTrue (list_all is_value values.now) }
{
    for value in values {
        value.know();
    }
}
