//! Where a text stands in another, in time linear in both. None of it takes memory.
ghost use Rattle.std.specs.Prelude.{◌≡◌, ◌<◌, ◌≤◌, length};
ghost use Rattle.std.specs.Char.{to_ascii_lowercase};
ghost use Rattle.spec_value.specs.TextSearch.{first_at, last_at};

use crate::two_way::{Reading, divide, first_from};

/// A character with the case of A to Z ignored.
pub fn fold(byte: u8) -> u8
    ensures { result ≡ to_ascii_lowercase byte }
{
    byte.to_ascii_lowercase()
}

/// The first place of a text in another, counted from 0; the case of letters counts or not.
pub fn find(text: &str, sought: &str, case_counts: bool) -> Option<usize>
    ensures { result ≡ first_at case_counts text.now sought.now }
{
    if sought.is_empty() {
        return Some(0);
    }
    let reading = Reading {
        backward: false,
        case_counts,
    };
    let sought = sought.as_bytes();
    first_from(text.as_bytes(), 0, sought, divide(sought, reading), reading)
}

/// The last place of a text in another, counted from 0; the case of letters counts or not.
pub fn find_last(text: &str, sought: &str, case_counts: bool) -> Option<usize>
    ensures { result ≡ last_at case_counts text.now sought.now }
{
    if sought.is_empty() {
        return Some(text.len());
    }
    let reading = Reading {
        backward: true,
        case_counts,
    };
    let sought = sought.as_bytes();
    let behind = first_from(text.as_bytes(), 0, sought, divide(sought, reading), reading)?;
    Some(text.len() - sought.len() - behind)
}
