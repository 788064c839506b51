//! Verbs that are programmed (Programmer's Manual, `set_verb_code()`).
ghost use Rattle.std.specs.Prelude.{◌≡◌, ◌++◌, [], ◌∷◌, Some, string_bytes, IfOk, OnOk};
ghost use Rattle.spec_value.specs.Datum.{object as object_of, list, of_list};
ghost use Rattle.spec_program.specs.ReadPrograms as by;
ghost use Rattle.spec_world.specs.Permissions.{in_place};
ghost use Rattle.spec_world.specs.Questions.{verbs_at};
ghost use Rattle.spec_moo.specs.Natives.Verbs.{set_verb_code_row, texts_of};
ghost use Rattle.moo_syntax.specs.Answer.{IsAnswer};
ghost use Rattle.moo_value.specs.Answers.{answer_of};
ghost use Rattle.view.specs.Law.{Goes, Lasts};
ghost use Rattle.rules.specs.Lines.{AreAgreeing};
ghost use Rattle.builtins_view.specs.Said.{Does};
ghost use Rattle.builtins.specs.Later.{Programs};

use crate::builtins_code::faults::fault_value;
use builtins_view::builtins_change::put::put_program;
use builtins_view::builtins_world::own_verb::own_verb;
use moo_compiler::program::Program;
use moo_syntax::parse::answered;
use moo_tree::statement::Tree;
use moo_value::answer::Answer;
use moo_value::error::MooError;
use moo_value::value::{Shown, Value};
use rules::permissions::act::Act;
use rules::permissions::may::may;
use std::alloc::{AllocError, Global};
use syntax_fault::fault::SyntaxFault;
use view::law::View;
use view::readers::read_verbs;
use view::verb::Verb;

/// `set_verb_code`: a verb, told by a word or by its place from 1, has the program of these lines, and the answer is `{}`; where they
/// are no program, nothing changes, and the answer is a list of their fault. `E_INVARG` where the object is not there, `E_VERBNF` where
/// it has no such verb, `E_PERM` where the programmer may not program it.
pub fn set_verb_code<V: View>(
    alloc: Global,
    view: &mut V,
    programmer: i32,
    object: i32,
    which: &Value,
    lines: &[Value],
) -> Result<Answer, AllocError>
    requires home { V.holds view.old (V.home view.old) }
    ensures lasts { Lasts V.holds V.home V.anchor view.old view.new result }
    ensures left { IfOk result (λ a. Goes V.holds V.now view.old view.new
        (λ before after. Does (λ s c. set_verb_code_row s c (object_of object ∷ which.now ∷ list (of_list lines.now) ∷ []))
        before after programmer (answer_of a))) }
    ensures well_formed { AreAgreeing V.holds V.now view.old → OnOk result (AreAgreeing V.holds V.now view.new) }
{
    let Some(verbs) = read_verbs(view, object)? else {
        return Ok(Err(MooError::InvalidArgument));
    };
    let Some((place, verb)) = own_verb(verbs.as_slice(), which) else {
        return Ok(Err(MooError::VerbNotFound));
    };
    let allowed = may(view, programmer, &Act::ProgramVerb(object, place))?;
    if !allowed {
        return Ok(Err(MooError::PermissionDenied));
    }
    let answer = put_lines(alloc, view, object, verbs.as_slice(), place, verb, lines)?;
    Ok(answer)
}

// A verb that may be programmed gets what comes of these lines.
fn put_lines<V: View>(
    alloc: Global,
    view: &mut V,
    object: i32,
    verbs: &[Verb],
    place: usize,
    verb: &Verb,
    lines: &[Value],
) -> Result<Answer, AllocError>
    requires home { V.holds view.old (V.home view.old) }
    requires there { in_place verbs.now place ≡ Some verb.now }
    ensures lasts { Lasts V.holds V.home V.anchor view.old view.new result }
    ensures left { IfOk result (λ a. Goes V.holds V.now view.old view.new (λ before after. verbs_at before object ≡ Some verbs.now →
        Programs object place (by.parsed_lines (texts_of (of_list lines.now))) before after (answer_of a))) }
{
    let text = joined(alloc, lines)?;
    let parsed = answered(alloc, text.as_bytes())?;
    let answer = put_parsed(alloc, view, object, verbs, place, verb, parsed)?;
    Ok(answer)
}

// A verb that may be programmed has the program of a text of which this came, or the text's fault is told.
#[tactic(auto, using(crate::proofs::Told::fault_programs))]
fn put_parsed<V: View>(
    alloc: Global,
    view: &mut V,
    object: i32,
    verbs: &[Verb],
    place: usize,
    verb: &Verb,
    parsed: Result<Tree, SyntaxFault>,
) -> Result<Answer, AllocError>
    requires home { V.holds view.old (V.home view.old) }
    requires there { in_place verbs.now place ≡ Some verb.now }
    ensures lasts { Lasts V.holds V.home V.anchor view.old view.new result }
    ensures left { IfOk result (λ a. Goes V.holds V.now view.old view.new (λ before after. verbs_at before object ≡ Some verbs.now →
        (p : by.Parsed) → IsAnswer parsed p → Programs object place p before after (answer_of a))) }
{
    match parsed {
        Ok(tree) => {
            let answer = put_tree(alloc, view, object, verbs, place, verb, tree)?;
            Ok(answer)
        }
        Err(fault) => {
            let told = fault_value(alloc, fault)?;
            Ok(Ok(told))
        }
    }
}

// A verb that may be programmed has the program of this tree.
fn put_tree<V: View>(
    alloc: Global,
    view: &mut V,
    object: i32,
    verbs: &[Verb],
    place: usize,
    verb: &Verb,
    tree: Tree,
) -> Result<Answer, AllocError>
    requires there { in_place verbs.now place ≡ Some verb.now }
    ensures lasts { Lasts V.holds V.home V.anchor view.old view.new result }
    ensures left { IfOk result (λ a. Goes V.holds V.now view.old view.new (λ before after. verbs_at before object ≡ Some verbs.now →
        Programs object place (by.program tree) before after (answer_of a))) }
{
    let program = Program::compile(alloc, tree)?;
    let nothing = Value::list(Vec::new(alloc))?;
    put_program(alloc, view, object, verbs, place, verb, program)?;
    Ok(Ok(nothing))
}

// The texts of a list, each with a line's end.
fn joined(alloc: Global, lines: &[Value]) -> Result<String, AllocError>
    ensures { IfOk result (λ t. string_bytes t ≡ by.joined_lines (texts_of (of_list lines.now))) }
{
    let mut text = String::new(alloc);
    for line in lines {
        push_line(&mut text, line)?;
    }
    Ok(text)
}

// Adds a text with a line's end.
fn push_line(text: &mut String, line: &Value) -> Result<(), AllocError>
    ensures { OnOk result (string_bytes text.new ≡ string_bytes text.old ++ by.joined_lines (texts_of (of_list (line.now ∷ [])))) }
{
    if let Shown::Text(line) = line.shown() {
        text.push_str(line)?;
        text.push_str("\n")?;
    }
    Ok(())
}
