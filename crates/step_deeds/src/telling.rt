//! Lines that a step tells, each for a connection: that is the `player` of what is told.
ghost use Rattle.std.specs.Prelude.{◌≡◌, ◌++◌, ℕ, Some, OnOk, map};
ghost use Rattle.spec_world.specs.World.{World};
ghost use Rattle.spec_moo.specs.Steps.Running.{told, told_on, lines_to};
ghost use Rattle.moo_task.specs.Deeds.{scene_of, told_of};
ghost use Rattle.view.specs.Law.{Lasts, Tells};

use crate::links::connection;
use moo_task::deeds::{Deeds, Told};
use moo_value::text::Text;
use std::alloc::AllocError;
use view::law::View;

/// Lines for the link that an object has, if it has one. They do not count among those that a step may tell.
pub fn tell<V: View>(
    view: &mut V,
    deeds: &mut Deeds,
    object: i32,
    lines: Vec<Text>,
) -> Result<(), AllocError>
    requires home { V.holds view.old (V.home view.old) }
    ensures lasts { Lasts V.holds V.home V.anchor view.old view.new result }
    ensures left { OnOk result (Tells V.holds V.now view.old view.new
        (λ w. (t : ℕ) → scene_of deeds.new w t ≡ told (scene_of deeds.old w t) object lines.items)) }
{
    if lines.is_empty() {
        return Ok(());
    }
    let Some(link) = connection(view, object)? else {
        return Ok(());
    };
    tell_on(deeds, link, lines)?;
    Ok(())
}

/// Lines for a connection. They do not count among those that a step may tell.
pub fn tell_on(deeds: &mut Deeds, connection: i32, lines: Vec<Text>) -> Result<(), AllocError>
    ensures { OnOk result ((w : World) (t : ℕ) → scene_of deeds.new w t ≡ told_on (scene_of deeds.old w t) (Some connection) lines.items) }
{
    push_lines(&mut deeds.output, connection, lines)?;
    Ok(())
}

fn push_lines(output: &mut Vec<Told>, connection: i32, lines: Vec<Text>) -> Result<(), AllocError>
    ensures { OnOk result (map told_of output.new.items ≡ map told_of output.old.items ++ lines_to connection lines.items) }
{
    for line in lines {
        output.push(Told {
            player: connection,
            line,
        })?;
    }
    Ok(())
}
