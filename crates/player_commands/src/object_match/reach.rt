//! Which of the objects within reach a text fits.
ghost use Rattle.std.specs.Prelude.{◌≡◌, IfOk, codes};
ghost use Rattle.spec_world.specs.World.{object_at};
ghost use Rattle.spec_world.specs.Naming.{contents_of};
ghost use Rattle.rules.specs.Lines.{AreAgreeing};
ghost use Rattle.view.specs.Law.{Lasts, Tells};
ghost use Rattle.player_commands.specs.Fits.{some_fit, named_in, object_fit, with_objects};

use crate::object_match::fit::{Fit, NO_FIT};
use crate::object_match::tally::Matches;
use moo_value::text::Text;
use rules::inherit::property::find_property;
use std::alloc::AllocError;
use view::header::Header;
use view::law::View;
use view::readers::{read_contents, read_header};

/// With those of the contents of an object that a text fits.
pub(crate) fn with_contents<V: View>(
    view: &mut V,
    matches: Matches,
    holder: i32,
    text: &str,
    aliases: &Text,
) -> Result<Matches, AllocError>
    requires home { V.holds view.old (V.home view.old) }
    requires well_formed { AreAgreeing V.holds V.now view.old }
    requires aliases { aliases.now ≡ codes "aliases" }
    ensures lasts { Lasts V.holds V.home V.anchor view.old view.new result }
    ensures left { IfOk result (λ m. Tells V.holds V.now view.old view.new
        (λ w. with_objects w text.now matches (contents_of (object_at w holder)) ≡ m)) }
{
    let contents = read_contents(view, holder)?;
    let Some(contents) = contents else {
        return Ok(matches);
    };
    let found = with_each(view, matches, contents.as_slice(), text, aliases)?;
    Ok(found)
}

fn with_each<V: View>(
    view: &mut V,
    matches: Matches,
    objects: &[i32],
    text: &str,
    aliases: &Text,
) -> Result<Matches, AllocError>
    requires home { V.holds view.old (V.home view.old) }
    requires well_formed { AreAgreeing V.holds V.now view.old }
    requires aliases { aliases.now ≡ codes "aliases" }
    ensures lasts { Lasts V.holds V.home V.anchor view.old view.new result }
    ensures left { IfOk result (λ m. Tells V.holds V.now view.old view.new (λ w. with_objects w text.now matches objects.now ≡ m)) }
{
    let mut found = matches;
    for object in objects {
        let fit = fit_of(view, *object, text, aliases)?;
        found = found.with_object(*object, fit);
    }
    Ok(found)
}

// How a text fits the name and the aliases of an object. Where it is the name, there is no more to ask.
fn fit_of<V: View>(view: &mut V, object: i32, text: &str, aliases: &Text) -> Result<Fit, AllocError>
    requires home { V.holds view.old (V.home view.old) }
    requires well_formed { AreAgreeing V.holds V.now view.old }
    requires aliases { aliases.now ≡ codes "aliases" }
    ensures lasts { Lasts V.holds V.home V.anchor view.old view.new result }
    ensures left { IfOk result (λ f. Tells V.holds V.now view.old view.new (λ w. object_fit w text.now object ≡ f)) }
{
    let header = read_header(view, object)?;
    let named = of_header(&header, text);
    if named.exact && named.beginning {
        return Ok(named);
    }
    let value = find_property(view, object, aliases)?;
    Ok(named.or(Fit::of_aliases(&value, text)))
}

fn of_header(header: &Option<Header>, text: &str) -> Fit
    ensures { result ≡ some_fit (named_in header.now) text.now }
{
    match header {
        Some(header) => Fit::of(header.name.as_str(), text),
        None => NO_FIT,
    }
}
