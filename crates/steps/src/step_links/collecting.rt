//! Lines that a player types for a verb's code, one after another.
ghost use Rattle.std.specs.Prelude.{◌≡◌, ◌++◌, ◌∷◌, [], Some, IfOk, codes};
ghost use Rattle.spec_value.specs.Datum.{list, of_list, same_text};
ghost use Rattle.spec_value.specs.Answer.{is_allowed};
ghost use Rattle.spec_value.specs.Table.{at};
ghost use Rattle.spec_world.specs.World.{World};
ghost use Rattle.spec_moo.specs.Natives.Properties.{as_texts};
ghost use Rattle.spec_moo.specs.Steps.Events.{foreground_ticks};
ghost use Rattle.spec_moo.specs.Steps.Programming.{collected, goes_on, fits_still, with_line as with_line_of};
ghost use Rattle.moo_task.specs.Deeds.{scene_of};
ghost use Rattle.view.specs.Law.{Goes, Lasts};
ghost use Rattle.steps.specs.StepsPerformed.{ComesTo};
ghost use Rattle.steps.specs.Ready.{AreReady};

use crate::step_links::coding::end;
use crate::step_tasks::finish::Finish;
use moo_task::deeds::Deeds;
use moo_value::answer::WEIGHT_LIMIT;
use moo_value::text::Text;
use std::alloc::{AllocError, Global};
use view::law::View;
use view::link::{Link, Programming};
use view::lists::Lines;
use view::readers::write_link;

/// A line for a verb's code, or the one that ends it.
#[inline(never)]
pub fn collect<V: View>(
    alloc: Global,
    view: &mut V,
    deeds: &mut Deeds,
    connection: i32,
    link: &Link,
    programming: &Programming,
    text: &Text,
) -> Result<Finish, AllocError>
    requires home { V.holds view.old (V.home view.old) }
    requires ready { AreReady V.holds V.now view.old deeds.old }
    requires link { (w : World) → V.holds view.old w → at (V.now view.old w).links connection ≡ Some link.now }
    ensures lasts { Lasts V.holds V.home V.anchor view.old view.new result }
    ensures played { IfOk result (λ o. Goes V.holds V.now view.old view.new (λ before after.
        ComesTo (collected (scene_of deeds.old before foreground_ticks) connection link.now programming.now text.now) after deeds.new o)) }
{
    let ends = is_end(text);
    if ends {
        let outcome = end(alloc, view, deeds, connection, link, programming)?;
        return Ok(outcome);
    }
    let outcome = keep(alloc, view, deeds, connection, link, programming, text)?;
    Ok(outcome)
}

// Whether a line ends the code: it is a point.
fn is_end(text: &Text) -> bool
    ensures { result ≡ same_text text.now (codes ".") }
{
    text.as_str() == "."
}

// One more line is kept.
fn keep<V: View>(
    alloc: Global,
    view: &mut V,
    deeds: &mut Deeds,
    connection: i32,
    link: &Link,
    programming: &Programming,
    text: &Text,
) -> Result<Finish, AllocError>
    requires home { V.holds view.old (V.home view.old) }
    requires ready { AreReady V.holds V.now view.old deeds.old }
    requires link { (w : World) → V.holds view.old w → at (V.now view.old w).links connection ≡ Some link.now }
    ensures lasts { Lasts V.holds V.home V.anchor view.old view.new result }
    ensures played { IfOk result (λ o. Goes V.holds V.now view.old view.new (λ before after.
        ComesTo (goes_on (scene_of deeds.old before foreground_ticks) connection link.now programming.now text.now) after deeds.new o)) }
{
    let lines = with_line(alloc, &programming.lines, text)?;
    let verb = programming.verb.clone()?;
    let longer = Programming {
        object: programming.object,
        verb,
        lines,
    };
    let collecting = Link {
        person: link.person,
        programming: Some(longer),
    };
    write_link(view, connection, Some(collecting))?;
    Ok(Finish::nothing())
}

// The lines with one more, unless they are too long then, or were before.
fn with_line(alloc: Global, lines: &Option<Lines>, line: &Text) -> Result<Option<Lines>, AllocError>
    ensures { IfOk result (λ o. o ≡ with_line_of lines.now line.now) }
{
    match lines {
        Some(lines) => one_more(alloc, lines, line),
        None => Ok(None),
    }
}

// The lines with one more, unless they are too long then.
fn one_more(alloc: Global, lines: &Lines, line: &Text) -> Result<Option<Lines>, AllocError>
    ensures { IfOk result (λ o. o ≡ fits_still (lines.now ++ line.now ∷ [])) }
{
    let all = followed_by(alloc, lines.as_slice(), line)?;
    if !fit(&all) {
        return Ok(None);
    }
    let lines = Lines::new(alloc, all)?;
    Ok(Some(lines))
}

fn followed_by(alloc: Global, lines: &[Text], line: &Text) -> Result<Vec<Text>, AllocError>
    ensures { IfOk result (λ v. v.items ≡ lines.now ++ line.now ∷ []) }
{
    let mut all = Vec::new(alloc);
    for kept in lines {
        all.push(kept.clone()?)?;
    }
    all.push(line.clone()?)?;
    Ok(all)
}

// Whether lines, as a list, weigh no more than a value may.
fn fit(lines: &[Text]) -> bool
    ensures { result ≡ is_allowed (list (of_list (as_texts lines.now))) }
{
    let mut weight = 1usize;
    for line in lines {
        weight = weight.saturating_add(line.len()).saturating_add(1);
    }
    weight <= WEIGHT_LIMIT
}
