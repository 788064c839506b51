//! Links of objects.
ghost use Rattle.std.specs.Prelude.{◌≡◌, ℕ, IfOk, OnOk};
ghost use Rattle.spec_world.specs.Links.{connection_of, reader_of};
ghost use Rattle.spec_world.specs.Links.{close_link as close_link_of};
ghost use Rattle.spec_world.specs.SpecViewLaws.{first as first_of};
ghost use Rattle.spec_moo.specs.Linking.{link_closed};
ghost use Rattle.moo_task.specs.Deeds.{scene_of};
ghost use Rattle.view.specs.Law.{Goes, Lasts, Tells};
ghost use Rattle.rules.specs.Lines.{AreAgreeing};
ghost use Rattle.rules.specs.Standing.{IsStanding};
ghost use Rattle.step_deeds.specs.Closing.{without_readers};

use moo_task::deeds::Deeds;
use std::alloc::AllocError;
use view::law::View;
use view::readers::{read_connections, read_readers, write_link, write_task};

/// The connection of an object that has a link.
pub fn connection<V: View>(view: &mut V, object: i32) -> Result<Option<i32>, AllocError>
    ensures lasts { Lasts V.holds V.home V.anchor view.old view.new result }
    ensures left { IfOk result (λ c. Tells V.holds V.now view.old view.new (λ w. connection_of w object ≡ c)) }
{
    let connections = read_connections(view, object)?;
    let connection = first(connections.as_slice());
    Ok(connection)
}

/// The task that reads on a connection.
pub fn reader<V: View>(view: &mut V, connection: i32) -> Result<Option<i32>, AllocError>
    ensures lasts { Lasts V.holds V.home V.anchor view.old view.new result }
    ensures left { IfOk result (λ i. Tells V.holds V.now view.old view.new (λ w. reader_of w connection ≡ i)) }
{
    let readers = read_readers(view, connection)?;
    let reader = first(readers.as_slice());
    Ok(reader)
}

/// A link goes, and a task that reads on it goes with it.
pub fn close_link<V: View>(view: &mut V, connection: i32) -> Result<(), AllocError>
    requires home { V.holds view.old (V.home view.old) }
    requires well_formed { AreAgreeing V.holds V.now view.old }
    ensures lasts { Lasts V.holds V.home V.anchor view.old view.new result }
    ensures left { OnOk result (Goes V.holds V.now view.old view.new (λ before after. after ≡ close_link_of before connection)) }
    ensures well_formed { OnOk result (AreAgreeing V.holds V.now view.new) }
{
    drop_reader(view, connection)?;
    write_link(view, connection, None)?;
    Ok(())
}

/// The link of an object is closed, if it has one.
pub fn close_connection_of<V: View>(
    view: &mut V,
    deeds: &mut Deeds,
    object: i32,
) -> Result<(), AllocError>
    requires home { V.holds view.old (V.home view.old) }
    requires well_formed { AreAgreeing V.holds V.now view.old }
    ensures lasts { Lasts V.holds V.home V.anchor view.old view.new result }
    ensures left { OnOk result (Goes V.holds V.now view.old view.new
        (λ before after. (t : ℕ) → scene_of deeds.new after t ≡ link_closed (scene_of deeds.old before t) object)) }
    ensures well_formed { OnOk result (AreAgreeing V.holds V.now view.new) }
{
    let Some(link) = connection(view, object)? else {
        return Ok(());
    };
    close_link(view, link)?;
    deeds.closed.push(link)?;
    Ok(())
}

// The task that reads on a connection goes, if there is one. In a well-formed world there is one at most.
fn drop_reader<V: View>(view: &mut V, connection: i32) -> Result<(), AllocError>
    ensures lasts { Lasts V.holds V.home V.anchor view.old view.new result }
    ensures left { OnOk result (Goes V.holds V.now view.old view.new
        (λ before after. IsStanding before → after ≡ without_readers before connection)) }
{
    let Some(task) = reader(view, connection)? else {
        return Ok(());
    };
    write_task(view, task, None)?;
    Ok(())
}

#[tactic(auto, using(crate::proofs::Closing::first_is_got))]
fn first(numbers: &[i32]) -> Option<i32>
    ensures { result ≡ first_of numbers.now }
{
    numbers.first().copied()
}
