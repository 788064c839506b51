//! Whole lines.
ghost use Rattle.std.specs.Prelude.{◌≡◌, ◌++◌, ◌∷◌, [], OnOk};
ghost use Rattle.spec_world.specs.Checkpoint.{counted, literal_lines, with_line_ends};

use crate::checkpoint_fields::page::Page;
use moo_value::text::Text;
use moo_value::value::Value;
use std::alloc::AllocError;

impl Page {
    /// Writes a line of a word and a count.
    pub fn put_count(&mut self, word: &str, count: usize) -> Result<(), AllocError>
        ensures { OnOk result (self.new ≡ self.old ++ with_line_ends (counted word.now count ∷ [])) }
    {
        self.put(word)?;
        self.put(" ")?;
        self.put_number(count as u64)?;
        self.end_line()
    }

    /// Writes lines.
    pub fn put_lines(&mut self, lines: &[Text]) -> Result<(), AllocError>
        ensures { OnOk result (self.new ≡ self.old ++ with_line_ends lines.now) }
    {
        for line in lines {
            self.put(line.as_str())?;
            self.end_line()?;
        }
        Ok(())
    }

    /// Writes values, each on a line of its own.
    pub fn put_value_lines(&mut self, values: &[Value]) -> Result<(), AllocError>
        ensures { OnOk result (self.new ≡ self.old ++ with_line_ends (literal_lines values.now)) }
    {
        for value in values {
            self.put_value(value)?;
            self.end_line()?;
        }
        Ok(())
    }
}
