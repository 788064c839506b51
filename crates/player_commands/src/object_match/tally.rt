//! Which objects a text fits: none, one or several.
ghost use Rattle.std.specs.Prelude.{◌≡◌};
ghost use Rattle.player_commands.specs.Fits.{counted as counted_of, with_object, one_of, answer_of};

use crate::object_match::fit::Fit;

/// How many objects there are, and which where there is one.
#[derive(Clone, Copy)]
pub(crate) enum Tally {
    Nobody,
    One(i32),
    Several,
}

impl Tally {
    // With one more.
    fn counted(self, object: i32, counts: bool) -> Tally
        ensures { result ≡ counted_of self object counts }
    {
        if !counts {
            return self;
        }
        match self {
            Tally::Nobody => Tally::One(object),
            Tally::One(_) | Tally::Several => Tally::Several,
        }
    }

    // The object, -2 where there are several, -3 where there is none.
    fn answer(self) -> i32
        ensures { result ≡ one_of self }
    {
        match self {
            Tally::Nobody => -3,
            Tally::One(object) => object,
            Tally::Several => -2,
        }
    }
}

/// The objects that a text names, and those whose names it begins.
#[derive(Clone, Copy)]
pub(crate) struct Matches {
    pub exact: Tally,
    pub beginning: Tally,
}

/// No objects.
pub(crate) const NO_MATCHES: Matches = Matches {
    exact: Tally::Nobody,
    beginning: Tally::Nobody,
};

impl Matches {
    /// With an object that the text fits so.
    pub fn with_object(self, object: i32, fit: Fit) -> Matches
        ensures { result ≡ with_object self object fit }
    {
        Matches {
            exact: self.exact.counted(object, fit.exact),
            beginning: self.beginning.counted(object, fit.beginning),
        }
    }

    /// The object that is meant: those that match exactly count alone where there are any.
    pub fn answer(self) -> i32
        ensures { result ≡ answer_of self }
    {
        match self.exact {
            Tally::Nobody => self.beginning.answer(),
            exact => exact.answer(),
        }
    }
}
