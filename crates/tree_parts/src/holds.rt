//! What a construct holds while a part of it is under way.
ghost use Rattle.std.specs.Prelude.{◌≡◌, ◌+◌, length, IfOk};
ghost use Rattle.spec_program.specs.Place.{arity, held_count};
ghost use Rattle.tree_parts.specs.Nodes.{kinds_of, holds_of};

use moo_tree::expression::{Codes, Target, TargetNode};
use moo_tree::statement::Arm;
use std::alloc::AllocError;

/// Values by their kinds, the deepest first.
#[derive(Clone, Copy)]
pub enum Values<'a> {
    /// So many of any kind.
    Any(u8),
    /// So many of any kind, and a list so far.
    AnyAndList(u8),
    /// The values of a target.
    Target(&'a Target),
    /// The values of a target, and one of any kind.
    TargetAndOne(&'a Target),
    /// The codes that a handler takes.
    Codes(&'a Codes),
    /// The codes that each of these takes.
    Arms(&'a [Arm]),
    /// The codes that each of these takes, and a list so far.
    ArmsAndList(&'a [Arm]),
}

/// What is held while a part is under way.
#[derive(Clone, Copy)]
pub enum Holds<'a> {
    Values(Values<'a>),
    /// A nonempty list, and how many turns of it were begun.
    ListWalk,
    /// The number or object of this turn, and the last one.
    RangeWalk,
    /// How the body was left whose finally part is under way.
    WhyLeft,
}

/// How many values the parts of a target are. No tree is so large that no number counts them.
pub fn target_arity(target: &Target) -> Result<usize, AllocError>
    ensures { IfOk result (λ n. n ≡ arity target.now) }
{
    match &target.node {
        TargetNode::Variable(_) => Ok(0),
        TargetNode::Property(_, _) => Ok(2),
        TargetNode::Index(inner, _) => plus(target_arity(inner)?, 1),
        TargetNode::Range(inner, _, _) => plus(target_arity(inner)?, 2),
    }
}

fn plus(a: usize, b: usize) -> Result<usize, AllocError>
    ensures { IfOk result (λ n. n ≡ a + b) }
{
    a.checked_add(b).ok_or(AllocError)
}

impl Values<'_> {
    /// How many values they are. No tree is so large that no number counts them.
    pub fn count(self) -> Result<usize, AllocError>
        ensures { IfOk result (λ n. n ≡ length (kinds_of self.entry)) }
    {
        match self {
            Values::Any(count) => Ok(usize::from(count)),
            Values::AnyAndList(count) => Ok(usize::from(count) + 1),
            Values::Target(target) => target_arity(target),
            Values::TargetAndOne(target) => plus(target_arity(target)?, 1),
            Values::Codes(_) => Ok(1),
            Values::Arms(arms) => Ok(arms.len()),
            Values::ArmsAndList(arms) => Ok(arms.len() + 1),
        }
    }
}

impl Holds<'_> {
    /// How many values are held. No tree is so large that no number counts them.
    pub fn count(self) -> Result<usize, AllocError>
        ensures { IfOk result (λ n. n ≡ held_count (holds_of self.entry)) }
    {
        match self {
            Holds::Values(values) => values.count(),
            Holds::ListWalk | Holds::RangeWalk => Ok(2),
            Holds::WhyLeft => Ok(1),
        }
    }
}
