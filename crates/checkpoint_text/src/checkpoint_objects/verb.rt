//! The lines of verbs.
ghost use Rattle.std.specs.Prelude.{◌≡◌, ◌++◌, [], ◌∷◌, OnOk};
ghost use Rattle.spec_world.specs.Checkpoint.{verb_lines, each_verb, verb_line, verb_bits, part_text, preposition_number, with_line_ends};
ghost use Rattle.checkpoint_text.specs.CheckpointObjectsLines.{program_lines, verb_arguments, verb_names};
ghost use Rattle.view.specs.Parts.{object_part_of, preposition_part_of};

use crate::checkpoint_fields::page::Page;
use std::alloc::AllocError;
use view::verb::{ObjectPart, PrepositionPart, Verb};

/// Writes verbs with their programs.
pub fn put_verbs(page: &mut Page, verbs: &[Verb]) -> Result<(), AllocError>
    ensures { OnOk result (page.new ≡ page.old ++ with_line_ends (verb_lines verbs.now)) }
{
    page.put_count("verbs", verbs.len())?;
    put_each_verb(page, verbs)
}

fn put_each_verb(page: &mut Page, verbs: &[Verb]) -> Result<(), AllocError>
    ensures { OnOk result (page.new ≡ page.old ++ with_line_ends (each_verb verbs.now)) }
{
    for verb in verbs {
        put_verb(page, verb)?;
    }
    Ok(())
}

fn put_verb(page: &mut Page, verb: &Verb) -> Result<(), AllocError>
    ensures { OnOk result (page.new ≡ page.old ++ with_line_ends (program_lines verb.now)) }
{
    put_head(page, verb, verb.program.line_count())?;
    page.put(verb.program.text())
}

// The line of a verb whose program has so many lines.
fn put_head(page: &mut Page, verb: &Verb, count: usize) -> Result<(), AllocError>
    ensures { OnOk result (page.new ≡ page.old ++ with_line_ends (verb_line verb.now count ∷ [])) }
{
    put_names(page, verb)?;
    put_arguments(page, verb)?;
    page.put_number(count as u64)?;
    page.end_line()
}

// What comes before the objects and the preposition.
fn put_names(page: &mut Page, verb: &Verb) -> Result<(), AllocError>
    ensures { OnOk result (page.new ≡ page.old ++ verb_names verb.now) }
{
    page.put("verb ")?;
    page.put_text(&verb.names)?;
    page.put(" ")?;
    page.put_object(verb.owner)?;
    page.put(" ")?;
    put_bits(page, verb)?;
    page.put(" ")
}

// Which objects and which preposition it wants.
fn put_arguments(page: &mut Page, verb: &Verb) -> Result<(), AllocError>
    ensures { OnOk result (page.new ≡ page.old ++ verb_arguments verb.now) }
{
    put_part(page, verb.direct)?;
    page.put(" ")?;
    put_preposition(page, verb.preposition)?;
    page.put(" ")?;
    put_part(page, verb.indirect)?;
    page.put(" ")
}

#[tactic(auto, using(crate::proofs::Bits::no_verb_bits, crate::proofs::Bits::some_verb_bits))]
fn put_bits(page: &mut Page, verb: &Verb) -> Result<(), AllocError>
    ensures { OnOk result (page.new ≡ page.old ++ verb_bits verb.now) }
{
    if !(verb.readable || verb.writable || verb.callable || verb.debug) {
        return page.put("-");
    }
    page.put_letter("r", verb.readable)?;
    page.put_letter("w", verb.writable)?;
    page.put_letter("x", verb.callable)?;
    page.put_letter("d", verb.debug)
}

fn put_part(page: &mut Page, part: ObjectPart) -> Result<(), AllocError>
    ensures { OnOk result (page.new ≡ page.old ++ part_text (object_part_of part)) }
{
    match part {
        ObjectPart::Absent => page.put("none"),
        ObjectPart::Any => page.put("any"),
        ObjectPart::This => page.put("this"),
    }
}

fn put_preposition(page: &mut Page, part: PrepositionPart) -> Result<(), AllocError>
    ensures { OnOk result (page.new ≡ page.old ++ preposition_number (preposition_part_of part)) }
{
    match part {
        PrepositionPart::Absent => page.put("none"),
        PrepositionPart::Any => page.put("any"),
        PrepositionPart::Set(number) => page.put_number(u64::from(number)),
    }
}
