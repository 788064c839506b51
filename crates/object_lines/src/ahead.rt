//! Objects that are read before their turn.
ghost use Rattle.std.specs.Prelude.{◌≡◌, ◌≤◌, length, IfOk};
ghost use Rattle.object_lines.specs.Between.{AreBetween};

use crate::object::next_object;
use crate::shallow::is_next_shallow;
use checkpoint_lines::lines::Lines;
use named_objects::record::ObjectRecord;
use quick_reader::room::Room;
use std::alloc::{AllocError, Global};
use std::marker::Model;

/// Objects that stand one behind another in a text, with what is left of it before them and behind them.
pub struct ObjectsAhead<'a> {
    from: Lines<'a>,
    to: Lines<'a>,
    records: Vec<ObjectRecord>,
}

// Written out, so that letting go of what was read is proved here and not in each crate that lets it go.
impl<'a> Drop for ObjectsAhead<'a> {
    fn drop(self) {
        let ObjectsAhead {
            from: _from,
            to: _to,
            records: _records,
        } = self;
    }
}

impl<'a> Model for ObjectsAhead<'a> {
    ghost use Rattle.std.specs.Prelude.{length};
    ghost use Rattle.object_lines.specs.Between.{Ahead, ahead_code, AreBetween};

    ghost Value = { Ahead };

    ghost coded = { ahead_code };

    ghost view = { λ a. record { left = a.from.left.now; lines = a.from.count; many = length a.records.items } };

    ghost invariant = { λ a. AreBetween a.from a.to a.records.items };
}

impl<'a> ObjectsAhead<'a> {
    /// No object yet, at a place of a text, with room for so many.
    #[tactic(auto, using(crate::proofs::Between::none_between))]
    pub(crate) fn none(
        alloc: Global,
        place: Lines<'a>,
        room: usize,
    ) -> Result<ObjectsAhead<'a>, AllocError>
        ensures { IfOk result (λ o. o ≡ record { left = place.entry.left.now; lines = place.entry.count; many = 0 }) }
    {
        let records = Vec::with_capacity(alloc, room)?;
        Ok(ObjectsAhead {
            from: place,
            to: place,
            records,
        })
    }

    /// The objects from a place on, up to where no more than so many bytes are left, or what comes next is read as no object, or has a line of very many
    /// lists.
    pub fn read(
        alloc: Global,
        place: Lines<'a>,
        behind: usize,
    ) -> Result<ObjectsAhead<'a>, AllocError> {
        let mut objects = ObjectsAhead::none(alloc, place, 0)?;
        let mut room = Room::new(alloc);
        // Each takes a byte at least.
        for _object in 0..place.left().len() {
            let left = objects.to.left();
            if left.len() <= behind || !is_next_shallow(left) || !objects.grow(alloc, &mut room)? {
                break;
            }
        }
        objects.records.shrink_to_fit();
        Ok(objects)
    }

    /// How many they are.
    pub(crate) fn len(&self) -> usize
        ensures { result ≡ self.now.many }
    {
        self.records.len()
    }

    // One more, if it is read: whether it was.
    fn grow(&mut self, alloc: Global, room: &mut Room) -> Result<bool, AllocError> {
        self.records.reserve(1)?;
        let mut lines = self.to;
        match next_object(alloc, room, &mut lines) {
            Ok(record) => {
                self.records.push_reserved(record);
                self.to = lines;
                Ok(true)
            }
            Err(_) => Ok(false),
        }
    }

    /// Takes over others that stand right behind these, where they all are no more than so many.
    pub(crate) fn join(&mut self, others: ObjectsAhead<'a>, most: u64) -> Result<(), AllocError>
        requires { self.old.many ≤ most }
        ensures place { (self.new.left ≡ self.old.left) × (self.new.lines ≡ self.old.lines) }
        ensures most { self.new.many ≤ most }
    {
        let room = most - self.records.len() as u64;
        let ObjectsAhead {
            from,
            to,
            mut records,
        } = others;
        if records.len() as u64 > room || !self.to.is_at(&from) {
            return Ok(());
        }
        self.records.append(&mut records)?;
        self.to = to;
        Ok(())
    }

    /// The places before them and behind them, and what was read.
    pub(crate) fn into_parts(self) -> (Lines<'a>, Lines<'a>, Vec<ObjectRecord>)
        ensures place { (result.0.left.now ≡ self.entry.left) × (result.0.count ≡ self.entry.lines) }
        ensures many { length result.2.items ≡ self.entry.many }
        ensures between { AreBetween result.0 result.1 result.2.items }
    {
        let ObjectsAhead { from, to, records } = self;
        (from, to, records)
    }
}
