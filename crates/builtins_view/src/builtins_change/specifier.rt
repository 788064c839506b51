//! What a command has to name for a verb, from texts: objects, and a preposition by any member of its set.
ghost use Rattle.std.specs.Prelude.{◌≡◌, ◌<◌, length, map, option_map, IfSome};
ghost use Rattle.spec_world.specs.Prepositions.{sets};
ghost use Rattle.spec_moo.specs.Natives.Verbs.{object_part as object_part_meant, preposition_part as preposition_part_meant, specifier as specifier_meant, set_with};
ghost use Rattle.view.specs.Parts.{object_part_of, preposition_part_of};
ghost use Rattle.builtins_view.specs.Specifiers.{specifier_of, has_member as has_member_of, first_with as first_with_of};

use moo_value::text::Text;
use view::verb::{ObjectPart, PrepositionPart};
use view::verb_names::is_same;

/// A direct object, a preposition and an indirect object, as texts.
#[derive(Drop)]
pub struct Words {
    pub direct: Text,
    pub preposition: Text,
    pub indirect: Text,
}

/// What a command has to name for a verb.
#[derive(Clone, Copy)]
pub struct Specifier {
    pub direct: ObjectPart,
    pub preposition: PrepositionPart,
    pub indirect: ObjectPart,
}

/// The sets of prepositions by their numbers, each with its members.
static SETS: [&[&str]; 15] = [
    &["with", "using"],
    &["at", "to"],
    &["in front of"],
    &["in", "inside", "into"],
    &["on top of", "on", "onto", "upon"],
    &["out of", "from inside", "from"],
    &["over"],
    &["through"],
    &["under", "underneath", "beneath"],
    &["behind"],
    &["beside"],
    &["for", "about"],
    &["is"],
    &["as"],
    &["off", "off of"],
];

/// The specifier that texts tell, or None where one of them tells nothing.
pub fn read_specifier(words: &Words) -> Option<Specifier>
    ensures { option_map specifier_of result ≡ specifier_meant words.now.direct words.now.preposition words.now.indirect }
{
    let direct = object_part(words.direct.as_str())?;
    let preposition = preposition_part(words.preposition.as_str())?;
    let indirect = object_part(words.indirect.as_str())?;
    Some(Specifier {
        direct,
        preposition,
        indirect,
    })
}

// `none`, `any` or `this`
fn object_part(text: &str) -> Option<ObjectPart>
    ensures { option_map object_part_of result ≡ object_part_meant text.now }
{
    match text {
        "none" => Some(ObjectPart::Absent),
        "any" => Some(ObjectPart::Any),
        "this" => Some(ObjectPart::This),
        _ => None,
    }
}

// `none`, `any`, or a member of a set. Of a preposition case is ignored.
fn preposition_part(text: &str) -> Option<PrepositionPart>
    ensures { option_map preposition_part_of result ≡ preposition_part_meant text.now }
{
    if text == "none" {
        return Some(PrepositionPart::Absent);
    }
    if text == "any" {
        return Some(PrepositionPart::Any);
    }
    let set = set_of(text)?;
    Some(PrepositionPart::Set(set))
}

// The number of the set with a member.
fn set_of(text: &str) -> Option<u8>
    ensures { result ≡ set_with text.now sets }
{
    let number = first_with(&SETS, text)?;
    Some(number as u8)
}

// The number of the first set with a member. Case is ignored.
fn first_with(sets: &[&[&str]], text: &str) -> Option<usize>
    ensures number { result ≡ first_with_of text.now (map (λ s. map (λ m. m.now) s.now) sets.now) }
    ensures within { IfSome result (λ n. n < length sets.now) }
{
    for (number, members) in sets.iter().enumerate() {
        if has_member(members, text) {
            return Some(number);
        }
    }
    None
}

fn has_member(members: &[&str], text: &str) -> bool
    ensures { result ≡ has_member_of text.now (map (λ m. m.now) members.now) }
{
    for member in members {
        if is_same(member.as_bytes(), text.as_bytes()) {
            return true;
        }
    }
    false
}
