//! Texts, the strings of the language.
ghost use Rattle.std.specs.Prelude.{◌≡◌, ◌↔◌, ◌≤◌, ◌++◌, take, drop, is_ok, if◌then◌else◌, IfOk, MatchOption, IsTrue, IsFalse, length, string_bytes};
ghost use Rattle.std.specs.Arc.{arc_value};
ghost use Rattle.spec_value.specs.Datum.{is_text as is_text_of};

use std::alloc::{AllocError, Global};
use std::marker::Model;
use std::sync::Arc;

/// A text of printing ASCII, spaces and tabs, shared by its owners: a clone is a count.
pub struct Text {
    bytes: Arc<String>,
}

// Written out, so that letting go of the characters is proved here and not in each crate that lets a text go.
impl Drop for Text {
    fn drop(self) {
        let Text { bytes: _bytes } = self;
    }
}

impl Model for Text {
    ghost use Rattle.std.specs.Prelude.{ℕ, List, IsTrue, string_bytes};
    ghost use Rattle.std.specs.Arc.{arc_value};

    ghost Value = { List ℕ };

    ghost use Rattle.spec_value.specs.Datum.{is_text};

    ghost view = { λ a. string_bytes (arc_value a.bytes) };

    ghost invariant = { λ a. IsTrue (is_text (string_bytes (arc_value a.bytes))) };
}

impl Text {
    /// The text, if all of its characters are allowed: 32 to 126 and tab.
    pub fn new(text: String) -> Result<Option<Text>, AllocError>
        ensures { IfOk result (λ o. MatchOption o (IsFalse (is_text_of (string_bytes text))) (λ t. t ≡ string_bytes text)) }
    {
        if !is_allowed(text.as_bytes()) {
            return Ok(None);
        }
        let bytes = shared(text)?;
        Ok(Some(Text { bytes }))
    }

    /// A text whose characters are known to be allowed.
    pub fn from_str(alloc: Global, text: &str) -> Result<Text, AllocError>
        requires { IsTrue (is_text_of text.now) }
        ensures { IfOk result (λ t. t ≡ text.now) }
    {
        let bytes = shared(String::from_str(alloc, text)?)?;
        Ok(Text { bytes })
    }

    /// The text of an owned string whose characters are known to be allowed.
    pub fn from_string(text: String) -> Result<Text, AllocError>
        requires { IsTrue (is_text_of (string_bytes text)) }
        ensures { IfOk result (λ t. t ≡ string_bytes text) }
    {
        let bytes = shared(text)?;
        Ok(Text { bytes })
    }

    /// Three texts whose characters are known to be allowed, one behind the other.
    pub fn joined(alloc: Global, first: &str, second: &str, third: &str) -> Result<Text, AllocError>
        requires first { IsTrue (is_text_of first.now) }
        requires second { IsTrue (is_text_of second.now) }
        requires third { IsTrue (is_text_of third.now) }
        ensures { IfOk result (λ t. t ≡ first.now ++ (second.now ++ third.now)) }
    {
        let mut text = String::new(alloc);
        text.push_str(first)?;
        text.push_str(second)?;
        text.push_str(third)?;
        Text::from_string(text)
    }

    /// Puts characters that are known to be allowed at the end, in place where no other owner shares the text.
    pub fn push_str(&mut self, more: &str) -> Result<(), AllocError>
        requires { IsTrue (is_text_of more.now) }
        ensures { self.new ≡ (if is_ok result then self.old ++ more.now else self.old) }
    {
        if let Some(own) = Arc::get_mut(&mut self.bytes) {
            return push_on(own, more);
        }
        let alloc = *self.bytes.allocator();
        *self = Text::joined(alloc, self.as_str(), more, "")?;
        Ok(())
    }

    /// Whether it has no character.
    pub fn is_empty(&self) -> bool
        ensures { IsTrue result ↔ length self.now ≡ 0 }
    {
        self.bytes.len() == 0
    }

    /// The characters.
    pub fn as_str(&self) -> &str
        ensures { result.now ≡ self.now }
    {
        self.bytes.as_str()
    }

    /// What is known of every text: its characters are allowed.
    pub fn know(&self)
        ensures { IsTrue (is_text_of self.now) }
    {
        let _bytes = &self.bytes;
    }

    /// How many characters it has.
    pub fn len(&self) -> usize
        ensures { result ≡ length self.now }
    {
        self.bytes.len()
    }
}

// Allowed characters behind others.
fn push_on(text: &mut String, more: &str) -> Result<(), AllocError>
    requires text { IsTrue (is_text_of (string_bytes text.old)) }
    requires more { IsTrue (is_text_of more.now) }
    ensures bytes { string_bytes text.new ≡ (if is_ok result then string_bytes text.old ++ more.now else string_bytes text.old) }
    ensures allowed { IsTrue (is_text_of (string_bytes text.new)) }
{
    text.push_str(more)
}

// Characters to be shared.
fn shared(text: String) -> Result<Arc<String>, AllocError>
    ensures { IfOk result (λ a. string_bytes (arc_value a) ≡ string_bytes text) }
{
    let alloc = *text.allocator();
    let shared = Arc::new(alloc, text)?;
    Ok(shared)
}

/// The first characters of a text whose characters are known to be allowed.
pub fn front(text: &str, count: usize) -> &str
    requires text { IsTrue (is_text_of text.now) }
    requires count { count ≤ length text.now }
    ensures value { result.now ≡ take count text.now }
    ensures allowed { IsTrue (is_text_of result.now) }
{
    &text[..count]
}

/// The characters behind the first ones of a text whose characters are known to be allowed.
pub fn back(text: &str, count: usize) -> &str
    requires text { IsTrue (is_text_of text.now) }
    requires count { count ≤ length text.now }
    ensures value { result.now ≡ drop count text.now }
    ensures allowed { IsTrue (is_text_of result.now) }
{
    &text[count..]
}

fn is_allowed(bytes: &[u8]) -> bool
    ensures { result ≡ is_text_of bytes.now }
{
    for c in bytes {
        let allowed = *c == b'\t' || (b' ' <= *c && *c <= b'~');
        if !allowed {
            return false;
        }
    }
    true
}

impl Clone for Text {
    ghost is_clone = { λ s copy. copy ≡ s };

    fn clone(&self) -> Result<Text, AllocError> {
        let bytes = self.bytes.clone()?;
        Ok(Text { bytes })
    }
}
