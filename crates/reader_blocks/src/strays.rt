//! Which `break` and `continue` go out of a loop, and out of a fork.

ghost use Rattle.std.specs.Prelude.{◌≡◌, map, IfOk};
ghost use Rattle.spec_value.specs.Datum.{same_text};
ghost use Rattle.spec_program.specs.ReadPrograms as by;
ghost use Rattle.moo_reader.specs.BlockViews.{stray_of, strays_of};

use moo_reader::block::Stray;
use moo_value::text::Text;
use std::alloc::{AllocError, Global};

/// A copy of a name.
pub fn copied(name: &Option<Text>) -> Result<Option<Text>, AllocError>
    ensures { IfOk result (λ x. x ≡ name.now) }
{
    match name {
        Some(name) => Ok(Some(name.clone()?)),
        None => Ok(None),
    }
}

fn is_same(one: &Text, other: &Text) -> bool
    ensures { result ≡ same_text one.now other.now }
{
    one.as_str() == other.as_str()
}

fn is_same_name(one: &Option<Text>, other: &Option<Text>) -> bool
    ensures { result ≡ by.same_name one.now other.now }
{
    match one {
        None => false,
        Some(one) => match other {
            None => false,
            Some(other) => is_same(one, other),
        },
    }
}

fn goes_out(own: &Option<Text>, stray: &Stray) -> bool
    ensures { result ≡ by.goes_out own.now (stray_of stray.now) }
{
    if stray.cut_off {
        return true;
    }
    match &stray.name {
        None => false,
        Some(_) => !is_same_name(&stray.name, own),
    }
}

fn copied_stray(stray: &Stray) -> Result<Stray, AllocError>
    ensures { IfOk result (λ s. stray_of s ≡ stray_of stray.now) }
{
    Ok(Stray {
        line: stray.line,
        name: copied(&stray.name)?,
        cut_off: stray.cut_off,
    })
}

/// Those that go out of a loop of this name.
#[tactic(auto, using(crate::proofs::GoingOut::one_out, crate::proofs::GoingOut::one_taken, crate::proofs::GoingOut::none_left))]
pub fn out_of_loop(
    alloc: Global,
    own: &Option<Text>,
    strays: &[Stray],
) -> Result<Vec<Stray>, AllocError>
    ensures { IfOk result (λ v. strays_of v.items ≡ by.out_of_loop own.now (strays_of strays.now)) }
{
    let mut others = Vec::new(alloc);
    for stray in strays {
        if goes_out(own, stray) {
            let stray = copied_stray(stray)?;
            others.push(stray)?;
        }
    }
    Ok(others)
}

fn cut(stray: &Stray) -> Result<Stray, AllocError>
    ensures { IfOk result (λ s. stray_of s ≡ by.cut (stray_of stray.now)) }
{
    Ok(Stray {
        line: stray.line,
        name: copied(&stray.name)?,
        cut_off: true,
    })
}

/// Those in the body of a fork, which no loop outside of it takes.
#[tactic(auto, using(crate::proofs::GoingOut::one_cut, crate::proofs::GoingOut::all_cut))]
pub fn out_of_fork(alloc: Global, strays: &[Stray]) -> Result<Vec<Stray>, AllocError>
    ensures { IfOk result (λ v. strays_of v.items ≡ map by.cut (strays_of strays.now)) }
{
    let mut others = Vec::new(alloc);
    for stray in strays {
        let stray = cut(stray)?;
        others.push(stray)?;
    }
    Ok(others)
}
