//! Who runs which verb for whom.
use moo_value::text::Text;
use std::marker::Model;

/// Who runs which verb for whom.
#[derive(Drop)]
pub struct Call {
    /// The object on which the verb was called.
    pub this: i32,
    /// The object that called it.
    pub caller: i32,
    /// The object on which the verb was found.
    pub definer: i32,
    /// The object with whose permissions it runs.
    pub programmer: i32,
    /// The name by which it was called.
    pub verb: Text,
    /// Whether its errors are raised (the d bit); else an error of an expression is its value.
    pub debug: bool,
}

impl Model for Call {
    ghost use Rattle.spec_world.specs.World.{Call as Meant};
    ghost use Rattle.spec_world.specs.WorldCode.{call_code};

    ghost Value = { Meant };

    ghost coded = { call_code };

    ghost view = { λ a. record {
      this = a.this;
      caller = a.caller;
      definer = a.definer;
      programmer = a.programmer;
      verb = a.verb;
      debug = a.debug;
    } };
}

/// What the command line gave.
#[derive(Drop)]
pub struct Start {
    pub argstr: Text,
    pub dobj: i32,
    pub dobjstr: Text,
    pub prepstr: Text,
    pub iobj: i32,
    pub iobjstr: Text,
}

impl Model for Start {
    ghost use Rattle.spec_world.specs.World.{Start as Meant};
    ghost use Rattle.spec_world.specs.WorldCode.{start_code};

    ghost Value = { Meant };

    ghost coded = { start_code };

    ghost view = { λ a. record {
      argstr = a.argstr;
      dobj = a.dobj;
      dobjstr = a.dobjstr;
      prepstr = a.prepstr;
      iobj = a.iobj;
      iobjstr = a.iobjstr;
    } };
}
