//! The properties that every object has (Programmer's Manual, "Fundamental Object Attributes").
ghost use Rattle.std.specs.Prelude.{◌≡◌, ◌<◌, ◌+◌, ◌^◌, map, None, option_map, IsTrue};
ghost use Rattle.spec_value.specs.Datum.{fold_case};
ghost use Rattle.spec_moo.specs.Properties.{built_in, row_of};
ghost use Rattle.view.specs.BuiltIn.{property_of, is_either as is_either_of, is_bit_letter as is_bit_letter_of, begins_one as begins_one_of};

use crate::words::is_word;

/// A property that every object has.
#[derive(Clone, Copy, PartialEq, Eq, Debug)]
pub enum BuiltIn {
    /// `contents`
    Contents,
    /// `location`
    Location,
    /// One that may be written.
    Of(Attribute),
}

/// A built-in property that may be written.
#[derive(Clone, Copy, PartialEq, Eq, Debug)]
pub enum Attribute {
    /// `name`
    Name,
    /// `owner`
    Owner,
    /// One that takes any value by its truth.
    Flag(Flag),
}

/// A built-in property that is 1 or 0.
#[derive(Clone, Copy, PartialEq, Eq, Debug)]
pub enum Flag {
    /// `programmer`
    Programmer,
    /// `wizard`
    Wizard,
    /// `r`
    Readable,
    /// `w`
    Writable,
    /// `f`
    Fertile,
}

/// The built-in properties by their names.
static ROWS: [(&str, BuiltIn); 9] = [
    ("name", BuiltIn::Of(Attribute::Name)),
    ("owner", BuiltIn::Of(Attribute::Owner)),
    ("location", BuiltIn::Location),
    ("contents", BuiltIn::Contents),
    ("programmer", BuiltIn::Of(Attribute::Flag(Flag::Programmer))),
    ("wizard", BuiltIn::Of(Attribute::Flag(Flag::Wizard))),
    ("r", BuiltIn::Of(Attribute::Flag(Flag::Readable))),
    ("w", BuiltIn::Of(Attribute::Flag(Flag::Writable))),
    ("f", BuiltIn::Of(Attribute::Flag(Flag::Fertile))),
];

/// The built-in property of a name. Case is ignored.
#[inline(always)]
pub fn named(name: &str) -> Option<BuiltIn>
    ensures { option_map property_of result ≡ built_in name.now }
{
    if is_other(name.as_bytes()) {
        return None;
    }
    named_in(&ROWS, name)
}

// Whether the first letter shows that a name is none of those.
#[inline(always)]
fn is_other(name: &[u8]) -> bool
    ensures { IsTrue result → built_in name.now ≡ None }
{
    let Some(first) = name.get(0) else {
        return false;
    };
    if name.len() == 1 {
        !is_bit_letter(*first)
    } else {
        !begins_one(*first)
    }
}

// Whether a letter is the name of a bit. Case is ignored.
#[inline(always)]
fn is_bit_letter(letter: u8) -> bool
    ensures { result ≡ is_bit_letter_of letter }
{
    is_either(letter, b'R') || (is_either(letter, b'W') || is_either(letter, b'F'))
}

// Whether a longer name begins with a letter. Case is ignored.
#[inline(always)]
fn begins_one(letter: u8) -> bool
    ensures { result ≡ begins_one_of letter }
{
    is_either(letter, b'N')
        || (is_either(letter, b'O')
            || (is_either(letter, b'L')
                || (is_either(letter, b'C')
                    || (is_either(letter, b'P') || is_either(letter, b'W')))))
}

// Whether a letter is another one, which is given in upper case, or its lower case.
#[inline(always)]
fn is_either(letter: u8, upper: u8) -> bool
    requires { upper + 32 < 2 ^ 8 }
    ensures { result ≡ is_either_of letter upper }
{
    letter == upper || letter == upper + 32
}

// The first of several rows with a name.
#[tactic(auto, unfolding(spec_moo::specs::Properties::row_of))]
#[inline(never)]
fn named_in(rows: &[(&str, BuiltIn)], name: &str) -> Option<BuiltIn>
    ensures { option_map property_of result ≡ row_of (map (λ r. (r.0.now, property_of r.1)) rows.now) (fold_case name.now) }
{
    for (word, property) in rows {
        if is_word(name.as_bytes(), word.as_bytes()) {
            return Some(*property);
        }
    }
    None
}
