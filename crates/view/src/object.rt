//! Objects.
ghost use Rattle.std.specs.Prelude.{◌≡◌, true, false, IfOk, OnOk, OnErr, IsTrue, IsFalse, None};
ghost use Rattle.spec_value.specs.Datum.{fold_case};
ghost use Rattle.spec_value.specs.Table.{named, with_name};
ghost use Rattle.spec_world.specs.Questions.{put_part};
ghost use Rattle.view.specs.Meanings.{part_of};
ghost use Rattle.view.specs.Writing.{IsRewritten};

use crate::header::Header;
use crate::lists::{Names, Objects};
use crate::part::Part;
use crate::slot::Slot;
use crate::slots::Slots;
use crate::verb::Verbs;
use moo_value::text::Text;
use moo_value::value::Value;
use std::alloc::{AllocError, Global};
use std::marker::Model;

/// An object with all that it has. Its parts are shared with the objects that were made from it.
#[derive(Drop)]
pub struct Object {
    header: Header,
    children: Objects,
    contents: Objects,
    defines: Names,
    slots: Slots,
    verbs: Verbs,
}

/// The lists of an object: its children and its contents, and the names of the properties that it defines.
#[derive(Drop)]
pub struct Lists {
    pub children: Vec<i32>,
    pub contents: Vec<i32>,
    pub defines: Vec<Text>,
}

impl Model for Object {
    ghost use Rattle.spec_world.specs.World.{Object as Meant};
    ghost use Rattle.spec_world.specs.WorldCode.{object_code};

    ghost Value = { Meant };

    ghost coded = { object_code };

    ghost view = { λ a. record {
      header = a.header;
      children = a.children;
      contents = a.contents;
      defines = a.defines;
      slots = a.slots;
      verbs = a.verbs;
    } };
}

impl Object {
    ghost use Rattle.std.specs.Prelude.{option_map, Some};

    /// An object of these parts.
    pub fn new(
        alloc: Global,
        header: Header,
        lists: Lists,
        slots: Slots,
        verbs: Verbs,
    ) -> Result<Object, AllocError>
        ensures { IfOk result (λ x. x ≡ record {
          header = header;
          children = lists.children.items;
          contents = lists.contents.items;
          defines = lists.defines.items;
          slots = slots;
          verbs = verbs;
        }) }
    {
        let Lists {
            children,
            contents,
            defines,
        } = lists;
        Ok(Object {
            header,
            children: Objects::new(alloc, children)?,
            contents: Objects::new(alloc, contents)?,
            defines: Names::new(alloc, defines)?,
            slots,
            verbs,
        })
    }

    /// The header.
    pub fn header(&self) -> &Header
        ensures { result.now ≡ self.now.header }
    {
        &self.header
    }

    /// The children, in their order.
    pub fn children(&self) -> &Objects
        ensures { result.now ≡ self.now.children }
    {
        &self.children
    }

    /// The contents, in their order.
    pub fn contents(&self) -> &Objects
        ensures { result.now ≡ self.now.contents }
    {
        &self.contents
    }

    /// The names of the properties that it defines, in the order of definition.
    pub fn defines(&self) -> &Names
        ensures { result.now ≡ self.now.defines }
    {
        &self.defines
    }

    /// The slots.
    pub fn slots(&self) -> &Slots
        ensures { result.now ≡ self.now.slots }
    {
        &self.slots
    }

    /// The verbs.
    pub fn verbs(&self) -> &Verbs
        ensures { result.now ≡ self.now.verbs }
    {
        &self.verbs
    }

    /// The object has another part. After an `Err` it is as it was.
    pub fn put_part(&mut self, alloc: Global, part: Part) -> Result<(), AllocError>
        ensures ok { OnOk result (self.new ≡ put_part (part_of part) self.old) }
        ensures err { OnErr result (self.new ≡ self.old) }
    {
        match part {
            Part::Header(header) => self.header = header,
            Part::Children(children) => self.children = children,
            Part::Contents(contents) => self.contents = contents,
            Part::Defines(names) => self.defines = names,
            Part::Verbs(verbs) => self.verbs = verbs,
            Part::Slot(name, slot) => match slot {
                Some(slot) => self.slots.put(alloc, &name, slot)?,
                None => self.slots.remove(&name),
            },
        }
        Ok(())
    }

    /// Gives a slot another value where it lies, and answers whether there is such a slot. Case is ignored.
    pub fn set_value(&mut self, name: &Text, value: Value) -> bool
        ensures done { IsTrue result → Some self.new ≡ option_map
            (λ s. record (self.old) { slots = with_name self.old.slots (fold_case name.now) (record s { content = Some value }) })
            (named self.old.slots (fold_case name.now)) }
        ensures left { IsFalse result → (named self.old.slots (fold_case name.now) ≡ None) × (self.new ≡ self.old) }
    {
        self.slots.set_value(name, value)
    }

    /// Gives a slot another value where it lies, for a programmer, and answers whether there is such a slot that the programmer owns or all may write. Case is
    /// ignored.
    #[inline(always)]
    pub fn write(&mut self, programmer: i32, name: &Text, value: &Value) -> Result<bool, AllocError>
        ensures done { IfOk result (λ b. b ≡ true → IsRewritten programmer name.now value.now self.old self.new) }
        ensures left { IfOk result (λ b. b ≡ false → self.new ≡ self.old) }
        ensures err { OnErr result (self.new ≡ self.old) }
    {
        self.slots.write(programmer, name, value)
    }

    /// The object with another value in a slot, or None where it has no such slot.
    pub fn with_value(
        &self,
        alloc: Global,
        name: &Text,
        value: Value,
    ) -> Result<Option<Object>, AllocError>
        ensures { IfOk result (λ x. x ≡ option_map
            (λ s. record self.now { slots = with_name self.now.slots (fold_case name.now) (record s { content = Some value }) })
            (named self.now.slots (fold_case name.now))) }
    {
        let Some(slots) = self.slots.with_value(alloc, name, value)? else {
            return Ok(None);
        };
        Ok(Some(Object {
            header: self.header.clone()?,
            children: self.children.clone()?,
            contents: self.contents.clone()?,
            defines: self.defines.clone()?,
            slots,
            verbs: self.verbs.clone()?,
        }))
    }
}

impl Clone for Object {
    ghost is_clone = { λ object copy. copy ≡ object };

    fn clone(&self) -> Result<Object, AllocError> {
        Ok(Object {
            header: self.header.clone()?,
            children: self.children.clone()?,
            contents: self.contents.clone()?,
            defines: self.defines.clone()?,
            slots: self.slots.clone()?,
            verbs: self.verbs.clone()?,
        })
    }
}
