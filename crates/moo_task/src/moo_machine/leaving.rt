//! Ways to leave a part of a program before its end.
use moo_value::text::Text;
use moo_value::value::Value;
use std::marker::Model;

/// An error on its way out, with the verbs that it came by so far, the innermost first. Its code may be any value.
#[derive(Drop)]
pub struct Failure {
    pub code: Value,
    pub message: Text,
    pub value: Value,
    pub traceback: Vec<Traced>,
}

/// A verb that an error came by, or that was under way.
#[derive(Drop)]
pub struct Traced {
    pub this: i32,
    pub verb: Text,
    pub programmer: i32,
    pub definer: i32,
    pub player: i32,
}

impl Model for Traced {
    ghost use Rattle.spec_moo.specs.Leaving.{Traced as Meant};
    ghost use Rattle.moo_task.specs.TracedCode.{traced_code};

    ghost Value = { Meant };

    ghost coded = { traced_code };

    ghost view = { λ a. record {
      this = a.this;
      verb = a.verb;
      programmer = a.programmer;
      definer = a.definer;
      player = a.player;
    } };
}

/// How a part is left.
#[derive(Drop)]
pub enum Leaving {
    /// The verb returns a value.
    Returned(Value),
    /// An error was raised.
    Failed(Failure),
    /// A `break` or a `continue`, out of so many loops before its own.
    Broken(u32),
    Continued(u32),
}
