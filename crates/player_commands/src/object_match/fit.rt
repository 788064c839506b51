//! How a text fits names.
ghost use Rattle.std.specs.Prelude.{◌≡◌};
ghost use Rattle.spec_value.specs.Datum.{of_list};
ghost use Rattle.spec_world.specs.Naming.{aliases_in, texts_in};
ghost use Rattle.player_commands.specs.Fits.{fit_of, either_fit, some_fit, text_in};

use moo_value::value::{Shown, Value};
use view::verb_names::{begins_with, is_same};

/// Whether a text is a name, and whether it begins one. Case is ignored.
#[derive(Clone, Copy)]
pub(crate) struct Fit {
    pub exact: bool,
    pub beginning: bool,
}

/// What fits no name.
pub(crate) const NO_FIT: Fit = Fit {
    exact: false,
    beginning: false,
};

impl Fit {
    /// How a text fits one name.
    pub fn of(name: &str, text: &str) -> Fit
        ensures { result ≡ fit_of name.now text.now }
    {
        Fit {
            exact: is_same(name.as_bytes(), text.as_bytes()),
            beginning: begins_with(name.as_bytes(), text.as_bytes()),
        }
    }

    /// How a text fits the aliases that a value holds: the texts of a list.
    pub fn of_aliases(value: &Option<Value>, text: &str) -> Fit
        ensures { result ≡ some_fit (aliases_in value.now) text.now }
    {
        let Some(value) = value else {
            return NO_FIT;
        };
        match value.shown() {
            Shown::List(items) => Fit::of_items(items, text),
            _ => NO_FIT,
        }
    }

    // The texts among items.
    #[tactic(auto, using(crate::proofs::Fits::fits_on, crate::proofs::Fits::fits_all, crate::proofs::Fits::fits_none))]
    fn of_items(items: &[Value], text: &str) -> Fit
        ensures { result ≡ some_fit (texts_in (of_list items.now)) text.now }
    {
        let mut fit = NO_FIT;
        for item in items {
            fit = fit.or(Fit::of_item(item, text));
        }
        fit
    }

    fn of_item(item: &Value, text: &str) -> Fit
        ensures { result ≡ some_fit (text_in item.now) text.now }
    {
        match item.shown() {
            Shown::Text(name) => Fit::of(name, text),
            _ => NO_FIT,
        }
    }

    /// How a text fits the names of both.
    pub fn or(self, other: Fit) -> Fit
        ensures { result ≡ either_fit self other }
    {
        Fit {
            exact: self.exact || other.exact,
            beginning: self.beginning || other.beginning,
        }
    }
}
