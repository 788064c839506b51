//! An object's verbs are others.
ghost use Rattle.std.specs.Prelude.{◌≡◌, ◌<◌, ◌++◌, ◌∷◌, [], length, Some, IfOk, OnOk};
ghost use Rattle.spec_world.specs.Families.{change_object};
ghost use Rattle.spec_world.specs.Members.{with_verb, without_verb, verb_added, verb_deleted, verb_changed};
ghost use Rattle.spec_world.specs.Permissions.{in_place};
ghost use Rattle.spec_world.specs.Questions.{verbs_at};
ghost use Rattle.spec_moo.specs.Natives.Verbs.{with_info as with_info_of, with_specifier as with_specifier_of};
ghost use Rattle.view.specs.Law.{Goes, Lasts};
ghost use Rattle.builtins_view.specs.Programs.{with_program as with_program_of};
ghost use Rattle.builtins_view.specs.Specifiers.{specifier_of};

use crate::builtins_change::made::{Info, with_info, with_program, with_specifier};
use crate::builtins_change::specifier::Specifier;
use moo_compiler::program::Program;
use std::alloc::{AllocError, Global};
use view::law::View;
use view::part::Part;
use view::readers::write_part;
use view::verb::{Verb, Verbs};

/// A verb of an object, with these verbs, has another owner, other bits and names.
pub fn put_info<V: View>(
    alloc: Global,
    view: &mut V,
    object: i32,
    verbs: &[Verb],
    place: usize,
    verb: &Verb,
    info: &Info,
) -> Result<(), AllocError>
    requires there { in_place verbs.now place ≡ Some verb.now }
    ensures lasts { Lasts V.holds V.home V.anchor view.old view.new result }
    ensures left { OnOk result (Goes V.holds V.now view.old view.new (λ before after.
        verbs_at before object ≡ Some verbs.now → after ≡ verb_changed before object place (with_info_of info.now.owner info.now.bits info.now.names))) }
{
    let changed = with_info(verb, info)?;
    let verbs = replaced(alloc, verbs, place, changed)?;
    put_verbs(view, object, verbs)
}

/// A verb of an object, with these verbs, has another specifier.
pub fn put_specifier<V: View>(
    alloc: Global,
    view: &mut V,
    object: i32,
    verbs: &[Verb],
    place: usize,
    verb: &Verb,
    specifier: Specifier,
) -> Result<(), AllocError>
    requires there { in_place verbs.now place ≡ Some verb.now }
    ensures lasts { Lasts V.holds V.home V.anchor view.old view.new result }
    ensures left { OnOk result (Goes V.holds V.now view.old view.new (λ before after.
        verbs_at before object ≡ Some verbs.now → after ≡ verb_changed before object place (with_specifier_of (specifier_of specifier)))) }
{
    let changed = with_specifier(verb, specifier)?;
    let verbs = replaced(alloc, verbs, place, changed)?;
    put_verbs(view, object, verbs)
}

/// A verb of an object, with these verbs, has another program.
pub fn put_program<V: View>(
    alloc: Global,
    view: &mut V,
    object: i32,
    verbs: &[Verb],
    place: usize,
    verb: &Verb,
    program: Program,
) -> Result<(), AllocError>
    requires there { in_place verbs.now place ≡ Some verb.now }
    ensures lasts { Lasts V.holds V.home V.anchor view.old view.new result }
    ensures left { OnOk result (Goes V.holds V.now view.old view.new (λ before after.
        verbs_at before object ≡ Some verbs.now → after ≡ verb_changed before object place (with_program_of program))) }
{
    let changed = with_program(verb, program)?;
    let verbs = replaced(alloc, verbs, place, changed)?;
    put_verbs(view, object, verbs)
}

/// An object with these verbs has one more, the last.
pub fn put_new<V: View>(
    alloc: Global,
    view: &mut V,
    object: i32,
    verbs: &[Verb],
    verb: Verb,
) -> Result<(), AllocError>
    ensures lasts { Lasts V.holds V.home V.anchor view.old view.new result }
    ensures left { OnOk result (Goes V.holds V.now view.old view.new (λ before after.
        verbs_at before object ≡ Some verbs.now → after ≡ verb_added before object verb)) }
{
    let verbs = with_more(alloc, verbs, verb)?;
    put_verbs(view, object, verbs)
}

/// An object with these verbs loses one.
pub fn lose<V: View>(
    alloc: Global,
    view: &mut V,
    object: i32,
    verbs: &[Verb],
    place: usize,
) -> Result<(), AllocError>
    requires { place < length verbs.now }
    ensures lasts { Lasts V.holds V.home V.anchor view.old view.new result }
    ensures left { OnOk result (Goes V.holds V.now view.old view.new (λ before after.
        verbs_at before object ≡ Some verbs.now → after ≡ verb_deleted before object place)) }
{
    let verbs = with_less(alloc, verbs, place)?;
    put_verbs(view, object, verbs)
}

// The verbs of an object that is there are others.
fn put_verbs<V: View>(view: &mut V, object: i32, verbs: Verbs) -> Result<(), AllocError>
    ensures lasts { Lasts V.holds V.home V.anchor view.old view.new result }
    ensures left { OnOk result (Goes V.holds V.now view.old view.new
        (λ before after. after ≡ change_object before object (λ x. record x { verbs = verbs }))) }
{
    write_part(view, object, Part::Verbs(verbs))
}

#[tactic(auto, using(crate::proofs::BuiltinsChangeChanges::verb_set))]
fn replaced(alloc: Global, verbs: &[Verb], place: usize, verb: Verb) -> Result<Verbs, AllocError>
    requires { place < length verbs.now }
    ensures { IfOk result (λ vs. vs ≡ with_verb verbs.now place (λ u. verb)) }
{
    let mut all = copies(alloc, verbs)?;
    all[place] = verb;
    Verbs::new(alloc, all)
}

fn with_more(alloc: Global, verbs: &[Verb], verb: Verb) -> Result<Verbs, AllocError>
    ensures { IfOk result (λ vs. vs ≡ verbs.now ++ verb ∷ []) }
{
    let mut all = copies(alloc, verbs)?;
    all.push(verb)?;
    Verbs::new(alloc, all)
}

#[tactic(auto, using(crate::proofs::BuiltinsChangeChanges::verb_removed))]
fn with_less(alloc: Global, verbs: &[Verb], place: usize) -> Result<Verbs, AllocError>
    requires { place < length verbs.now }
    ensures { IfOk result (λ vs. vs ≡ without_verb verbs.now place) }
{
    let mut all = copies(alloc, verbs)?;
    all.remove(place);
    Verbs::new(alloc, all)
}

fn copies(alloc: Global, verbs: &[Verb]) -> Result<Vec<Verb>, AllocError>
    ensures { IfOk result (λ v. v.items ≡ verbs.now) }
{
    let mut all = Vec::with_capacity(alloc, verbs.len())?;
    for verb in verbs {
        all.push(verb.clone()?)?;
    }
    Ok(all)
}
