//! Fields of a line, which stand one space apart.
ghost use Rattle.std.specs.Prelude.{◌≡◌, ◌==◌, ◌+◌, ◌<◌, List, [], ◌∷◌, ◌++◌, map, length, take, drop, Some, None, IsTrue, IfOk, IfSome, MatchOption};
ghost use Rattle.spec_value.specs.Datum.{Text};
ghost use Rattle.spec_world.specs.Checkpoint.{fields as joined};
ghost use Rattle.spec_faults.specs.Cutting.{fields_in};
ghost use Rattle.line_fields.specs.Fields.{Field, spelled, all_spelled, is_field, are_fields};
ghost use Rattle.line_fields.specs.Cutting.{first_fields};
ghost use Rattle.line_fields.specs.Places as place;

use std::alloc::{AllocError, Global};

/// Where a byte of a line stands: within how many lists, and whether within a text.
#[derive(Clone, Copy)]
struct Place {
    lists: usize,
    quoted: bool,
    // a backslash stands before the byte
    escaped: bool,
}

impl Place {
    // Whether a byte here ends a field.
    fn ends_field(self, byte: u8) -> bool
        ensures { result ≡ place.ends_field self byte }
    {
        byte == b' ' && self.lists == 0 && !self.quoted
    }

    // The place behind a byte.
    fn behind(self, byte: u8) -> Place
        ensures { result ≡ place.behind self byte }
    {
        if self.quoted {
            self.behind_character(byte)
        } else {
            self.behind_mark(byte)
        }
    }

    fn behind_character(self, byte: u8) -> Place
        ensures { result ≡ place.behind_character self byte }
    {
        Place {
            lists: self.lists,
            quoted: self.escaped || byte != b'"',
            escaped: !self.escaped && byte == b'\\',
        }
    }

    fn behind_mark(self, byte: u8) -> Place
        ensures { result ≡ place.behind_mark self byte }
    {
        let lists = match byte {
            b'{' => self.lists.saturating_add(1),
            b'}' => self.lists.saturating_sub(1),
            _ => self.lists,
        };
        Place {
            lists,
            quoted: byte == b'"',
            escaped: false,
        }
    }
}

/// The fields of a line: what stands between its spaces, but for those within a text or a list.
pub fn split(alloc: Global, line: &[u8]) -> Result<Vec<&[u8]>, AllocError>
    ensures reads { (f : Field) (fs : List Field) → IsTrue (are_fields (f ∷ fs)) → line.now ≡ joined (all_spelled (f ∷ fs)) → IfOk result (λ v. map (λ b. b.now) v.items ≡ all_spelled (f ∷ fs)) }
    ensures cuts { IfOk result (λ v. map (λ b. b.now) v.items ≡ fields_in line.now) }
{
    let mut fields = Vec::new(alloc);
    let mut rest = line;
    'fields: while let Some((field, behind)) = first_field(rest) {
        fields.push(field)?;
        rest = behind;
    }
    fields.push(rest)?;
    Ok(fields)
}

/// The fields of a line that has so many behind the first. The last is all that stands behind the others, which may be several fields.
pub fn split_first(alloc: Global, line: &[u8], count: usize) -> Result<Vec<&[u8]>, AllocError>
    ensures reads { (f : Field) (fs : List Field) → IsTrue (are_fields (f ∷ fs)) → length fs ≡ count → line.now ≡ joined (all_spelled (f ∷ fs)) → IfOk result (λ v. map (λ b. b.now) v.items ≡ all_spelled (f ∷ fs)) }
    ensures cuts { IfOk result (λ v. map (λ b. b.now) v.items ≡ first_fields count (fields_in line.now)) }
{
    let mut fields = Vec::with_capacity(alloc, count.saturating_add(1))?;
    let mut rest = line;
    'fields: for _field in 0..count {
        let Some((field, behind)) = first_field(rest) else {
            fields.push(rest)?;
            return Ok(fields);
        };
        fields.push(field)?;
        rest = behind;
    }
    fields.push(rest)?;
    Ok(fields)
}

/// Whether a text is no more than one field.
pub fn is_single(text: &[u8]) -> bool
    ensures reads { (f : Field) → IsTrue (is_field f) → text.now ≡ spelled f → IsTrue result }
    ensures cuts { result ≡ (length (fields_in text.now) == 1) }
{
    field_end(text).is_none()
}

// The first field, and what stands behind its space, if another one does.
fn first_field(line: &[u8]) -> Option<(&[u8], &[u8])>
    ensures shorter { IfSome result (λ p. length p.1.now < length line.now) }
    ensures between { (f : Field) (r : Text) → IsTrue (is_field f) → line.now ≡ spelled f ++ 32 ∷ r → MatchOption result ⊥ (λ p. (p.0.now ≡ spelled f) × (p.1.now ≡ r)) }
    ensures last { (f : Field) → IsTrue (is_field f) → line.now ≡ spelled f → MatchOption result (Unit {0}) (λ p. ⊥) }
    ensures cuts { MatchOption result (fields_in line.now ≡ line.now ∷ []) (λ p. fields_in line.now ≡ p.0.now ∷ fields_in p.1.now) }
{
    let Some(end) = field_end(line) else {
        return None;
    };
    Some((&line[..end], &line[end + 1..]))
}

// Where the first field ends, if another one stands behind it.
fn field_end(line: &[u8]) -> Option<usize>
    ensures within { IfSome result (λ i. i < length line.now) }
    ensures between { (f : Field) (r : Text) → IsTrue (is_field f) → line.now ≡ spelled f ++ 32 ∷ r → result ≡ Some (length (spelled f)) }
    ensures last { (f : Field) → IsTrue (is_field f) → line.now ≡ spelled f → result ≡ None }
    ensures cuts { MatchOption result (fields_in line.now ≡ line.now ∷ []) (λ k. fields_in line.now ≡ take k line.now ∷ fields_in (drop (k + 1) line.now)) }
{
    let mut place = Place {
        lists: 0,
        quoted: false,
        escaped: false,
    };
    for (index, byte) in line.iter().enumerate() {
        if place.ends_field(*byte) {
            return Some(index);
        }
        place = place.behind(*byte);
    }
    None
}
