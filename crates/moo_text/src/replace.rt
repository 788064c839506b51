//! Replacement of parts of a text.
ghost use Rattle.std.specs.Prelude.{◌≡◌, ◌<◌, ◌≤◌, IfOk, MatchOption, IsTrue, length};
ghost use Rattle.spec_value.specs.Answer.{weight_limit};
ghost use Rattle.spec_value.specs.Datum.{is_text};
ghost use Rattle.spec_value.specs.TextSearch.{substituted};

use crate::two_way::{Reading, divide, first_from};
use moo_value::answer::WEIGHT_LIMIT;
use moo_value::text::{Text, back, front};
use std::alloc::{AllocError, Global};

/// The text with each place of another, from the left and without overlap, replaced by a third; none where the result would
/// be longer than a text may be. The case of letters counts or not in the search.
pub fn substitute_text(
    alloc: Global,
    text: &str,
    sought: &str,
    replacement: &str,
    case_counts: bool,
) -> Result<Option<Text>, AllocError>
    requires text { IsTrue (is_text text.now) }
    requires sought { 0 < length sought.now }
    requires replacement { IsTrue (is_text replacement.now) }
    ensures { IfOk result (λ o. MatchOption o (weight_limit ≤ length (substituted case_counts text.now sought.now replacement.now)) (λ t. t ≡ substituted case_counts text.now sought.now replacement.now)) }
{
    let reading = Reading {
        backward: false,
        case_counts,
    };
    let bytes = text.as_bytes();
    let sought = sought.as_bytes();
    let cut = divide(sought, reading);
    let mut out = String::new(alloc);
    let mut place = 0;
    'places: while let Some(next) = first_from(bytes, place, sought, cut, reading) {
        out.push_str(front(back(text, place), next - place))?;
        out.push_str(replacement)?;
        if out.len() >= WEIGHT_LIMIT {
            return Ok(None);
        }
        place = next + sought.len();
    }
    out.push_str(back(text, place))?;
    if out.len() >= WEIGHT_LIMIT {
        return Ok(None);
    }
    Ok(Some(Text::from_string(out)?))
}
