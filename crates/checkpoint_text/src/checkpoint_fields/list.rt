//! Lists as a program would write them.
ghost use Rattle.std.specs.Prelude.{◌≡◌, ◌++◌, OnOk};
ghost use Rattle.spec_value.specs.Datum.{of_list};
ghost use Rattle.spec_value.specs.Literal.{more_text};
ghost use Rattle.spec_world.specs.Checkpoint.{list_literal, object_list, text_list};

use crate::checkpoint_fields::page::Page;
use moo_value::text::Text;
use moo_value::value::Value;
use std::alloc::AllocError;

impl Page {
    /// Writes a list of objects.
    pub fn put_objects(&mut self, objects: &[i32]) -> Result<(), AllocError>
        ensures { OnOk result (self.new ≡ self.old ++ list_literal (object_list objects.now)) }
    {
        self.put("{")?;
        if let Some((first, rest)) = objects.split_first() {
            self.put_object(*first)?;
            self.put_more_objects(rest)?;
        }
        self.put("}")
    }

    fn put_more_objects(&mut self, objects: &[i32]) -> Result<(), AllocError>
        ensures { OnOk result (self.new ≡ self.old ++ more_text (of_list (object_list objects.now))) }
    {
        for object in objects {
            self.put(", ")?;
            self.put_object(*object)?;
        }
        Ok(())
    }

    /// Writes a list of texts.
    pub fn put_texts(&mut self, texts: &[Text]) -> Result<(), AllocError>
        ensures { OnOk result (self.new ≡ self.old ++ list_literal (text_list texts.now)) }
    {
        self.put("{")?;
        if let Some((first, rest)) = texts.split_first() {
            self.put_text(first)?;
            self.put_more_texts(rest)?;
        }
        self.put("}")
    }

    fn put_more_texts(&mut self, texts: &[Text]) -> Result<(), AllocError>
        ensures { OnOk result (self.new ≡ self.old ++ more_text (of_list (text_list texts.now))) }
    {
        for text in texts {
            self.put(", ")?;
            self.put_text(text)?;
        }
        Ok(())
    }

    /// Writes a list of values.
    pub fn put_values(&mut self, values: &[Value]) -> Result<(), AllocError>
        ensures { OnOk result (self.new ≡ self.old ++ list_literal values.now) }
    {
        self.put("{")?;
        if let Some((first, rest)) = values.split_first() {
            self.put_item(first)?;
            self.put_more_values(rest)?;
        }
        self.put("}")
    }

    fn put_more_values(&mut self, values: &[Value]) -> Result<(), AllocError>
        ensures { OnOk result (self.new ≡ self.old ++ more_text (of_list values.now)) }
    {
        for value in values {
            self.put(", ")?;
            self.put_item(value)?;
        }
        Ok(())
    }
}
