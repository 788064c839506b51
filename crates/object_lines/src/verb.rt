//! Verbs, from their lines.
ghost use Rattle.std.specs.Prelude.{◌≡◌, ◌↔◌, ◌≤◌, ◌<◌, ◌^◌, ℕ, List, [], ◌∷◌, ◌++◌, length, IsTrue, IfOk, codes};
ghost use Rattle.std.specs.List.{list_all};
ghost use Rattle.std.specs.Fmt.{decimal};
ghost use Rattle.spec_value.specs.Datum as datum;
ghost use Rattle.spec_program.specs.Spelling.{canonical_lines};
ghost use Rattle.spec_world.specs.World as meant;
ghost use Rattle.spec_world.specs.Checkpoint.{part_text, preposition_number, verb_line, each_verb, verb_lines};
ghost use Rattle.checkpoint_lines.specs.Gives.{Gives};
ghost use Rattle.checkpoint_lines.specs.Rows.{row_fields, Left, Reads};
ghost use Rattle.spec_faults.specs.Cutting.{field_at, is_filled};
ghost use Rattle.spec_faults.specs.Plain.{number_in, is_number};
ghost use Rattle.spec_faults.specs.Forms.{verb_form};
ghost use Rattle.spec_faults.specs.Awaited as awaited;
ghost use Rattle.spec_faults.specs.Awaited.{counted, again, code, of_verb};
ghost use Rattle.checkpoint_lines.specs.declared.fault.FaultKind.TheVariants as kind;
ghost use Rattle.checkpoint_lines.specs.Told.{line_fields, IsHeaded, Checks, RowTells, Tells};
ghost use Rattle.view.specs.Parts.{object_part_of, preposition_part_of};
ghost use Rattle.object_lines.specs.Readable.{is_preposition_read, is_verb_read};
ghost use Rattle.object_lines.specs.Parts.{verb_fields, IsHead};
ghost use Rattle.object_lines.specs.ObjectAwaited.{is_object_part, is_preposition};

use checkpoint_lines::fault::{DecodeError, FaultKind};
use checkpoint_lines::lines::Lines;
use checkpoint_lines::row::Row;
use line_fields::bits::VerbBits;
use line_fields::number::natural;
use moo_compiler::program::Program;
use moo_value::text::Text;
use quick_reader::room::Room;
use std::alloc::Global;
use view::verb::{ObjectPart, PrepositionPart, Verb};

/// What a verb's own line says.
#[derive(Drop)]
struct Head {
    names: Text,
    owner: i32,
    bits: VerbBits,
    direct: ObjectPart,
    preposition: PrepositionPart,
    indirect: ObjectPart,
    // how many lines its program has
    lines: u64,
}

/// The verbs of an object, from the next lines.
pub fn next_verbs(
    alloc: Global,
    room: &mut Room,
    lines: &mut Lines<'_>,
) -> Result<Vec<Verb>, DecodeError>
    ensures reads { (vs : List meant.Verb) (rest : List datum.Text) → IsTrue (list_all is_verb_read vs) → Left lines.old (verb_lines vs ++ rest) → Reads result lines.new rest (λ v. v.items ≡ vs) }
    ensures tells { Tells result lines.old lines.new (counted (codes "verbs") awaited.each_verb ∷ []) (λ _. []) }
{
    let count = lines.next_count(alloc, b"verbs")?;
    so_many_verbs(alloc, room, lines, count)
}

// So many verbs, from the next lines.
fn so_many_verbs(
    alloc: Global,
    room: &mut Room,
    lines: &mut Lines<'_>,
    count: u64,
) -> Result<Vec<Verb>, DecodeError>
    ensures reads { (vs : List meant.Verb) (rest : List datum.Text) → IsTrue (list_all is_verb_read vs) → count ≡ length vs → Left lines.old (each_verb vs ++ rest) → Reads result lines.new rest (λ v. v.items ≡ vs) }
    ensures tells { Tells result lines.old lines.new (again count awaited.each_verb ∷ []) (λ _. []) }
{
    let mut verbs = Vec::new(alloc);
    'reading: for _verb in 0..count {
        let verb = next_verb(alloc, room, lines)?;
        verbs.push(verb)?;
    }
    verbs.shrink_to_fit();
    Ok(verbs)
}

fn next_verb(alloc: Global, room: &mut Room, lines: &mut Lines<'_>) -> Result<Verb, DecodeError>
    ensures reads { (v : meant.Verb) (rest : List datum.Text) → IsTrue (is_verb_read v) → Left lines.old (verb_line v (length (canonical_lines v.program)) ∷ (canonical_lines v.program ++ rest)) → Reads result lines.new rest (λ u. u ≡ v) }
    ensures tells { Tells result lines.old lines.new (awaited.verb ∷ []) (λ _. []) }
{
    let head = next_head(alloc, lines)?;
    let program = lines.next_program(alloc, room, head.lines)?;
    Ok(verb(head, program))
}

fn verb(head: Head, program: Program) -> Verb
    ensures { (v : meant.Verb) (n : ℕ) → IsHead head v n → program ≡ v.program → result ≡ v }
{
    let Head {
        names,
        owner,
        bits,
        direct,
        preposition,
        indirect,
        lines: _,
    } = head;
    Verb {
        names,
        owner,
        readable: bits.readable,
        writable: bits.writable,
        callable: bits.callable,
        debug: bits.debug,
        direct,
        preposition,
        indirect,
        program,
    }
}

fn next_head(alloc: Global, lines: &mut Lines<'_>) -> Result<Head, DecodeError>
    ensures reads { (v : meant.Verb) (n : ℕ) (rest : List datum.Text) → IsTrue (is_verb_read v) → n ≤ length rest → Left lines.old (verb_line v n ∷ rest) → Reads result lines.new rest (λ h. IsHead h v n) }
    ensures tells { Tells result lines.old lines.new (awaited.verb ∷ []) (λ h. code h.lines [] of_verb ∷ []) }
{
    let row = lines.next_with(alloc, b"verb", 7)?;
    head_of(alloc, &row)
}

// What the fields of a verb's own line say.
fn head_of(alloc: Global, row: &Row<'_>) -> Result<Head, DecodeError>
    ensures reads { (v : meant.Verb) (n : ℕ) → IsTrue (is_verb_read v) → n < 2 ^ 63 → row_fields row.now ≡ verb_fields v n → Gives result (λ h. IsHead h v n) }
    ensures tells { IsHeaded row.now (codes "verb") 7 → IsTrue (list_all is_filled (row_fields row.now)) → RowTells result row.now verb_form }
    ensures many { IsHeaded row.now (codes "verb") 7 → IsTrue (list_all is_filled (row_fields row.now)) → IfOk result (λ h. number_in (field_at (line_fields row.now) 7) ≡ h.lines) }
{
    let owner = row.object(2)?;
    let bits = row.verb_bits(3)?;
    let direct = object_part(row, 4)?;
    let preposition = preposition_part(row, 5)?;
    let indirect = object_part(row, 6)?;
    let lines = row.count(7)?;
    let names = row.text(alloc, 1)?;
    Ok(Head {
        names,
        owner,
        bits,
        direct,
        preposition,
        indirect,
        lines,
    })
}

fn object_part(row: &Row<'_>, index: usize) -> Result<ObjectPart, DecodeError>
    ensures reads { (p : meant.ObjectPart) → field_at (row_fields row.now) index ≡ part_text p → Gives result (λ q. object_part_of q ≡ p) }
    ensures tells { Checks result row.now kind.Number (is_object_part (field_at (row_fields row.now) index)) }
{
    match row.field(index) {
        b"none" => Ok(ObjectPart::Absent),
        b"any" => Ok(ObjectPart::Any),
        b"this" => Ok(ObjectPart::This),
        _ => Err(row.fault(FaultKind::Number)),
    }
}

fn preposition_part(row: &Row<'_>, index: usize) -> Result<PrepositionPart, DecodeError>
    ensures reads { (p : meant.PrepositionPart) → IsTrue (is_preposition_read p) → field_at (row_fields row.now) index ≡ preposition_number p → Gives result (λ q. preposition_part_of q ≡ p) }
    ensures tells { Checks result row.now kind.Number (is_preposition (field_at (row_fields row.now) index)) }
{
    let field = row.field(index);
    if is_none(field) {
        return Ok(PrepositionPart::Absent);
    }
    if is_any(field) {
        return Ok(PrepositionPart::Any);
    }
    preposition_set(row, field)
}

fn is_none(field: &[u8]) -> bool
    ensures { IsTrue result ↔ field.now ≡ codes "none" }
{
    match field {
        b"none" => true,
        _ => false,
    }
}

fn is_any(field: &[u8]) -> bool
    ensures { IsTrue result ↔ field.now ≡ codes "any" }
{
    match field {
        b"any" => true,
        _ => false,
    }
}

fn preposition_set(row: &Row<'_>, number: &[u8]) -> Result<PrepositionPart, DecodeError>
    ensures reads { (n : ℕ) → n ≤ 14 → number.now ≡ decimal n → Gives result (λ q. preposition_part_of q ≡ meant.preposition_set n) }
    ensures tells { Checks result row.now kind.Number (is_number 0 14 number.now) }
{
    let Some(set) = natural(number, 0, LAST_SET) else {
        return Err(row.fault(FaultKind::Number));
    };
    match u8::try_from(set) {
        Ok(set) => Ok(PrepositionPart::Set(set)),
        Err(_) => Err(row.fault(FaultKind::Number)),
    }
}

// The number of the last set of prepositions.
const LAST_SET: u64 = 14;
