//! Laws of steps between their tasks.
ghost use Rattle.spec_ready.specs.Ready.{BeginningsStand, GoingOnStands, LinksClose, LinksOpen, OpensReady, PlayersLogIn, TasksLeave, TicksAside, ValuesLeaveReady};

/// A step may run a task at its beginning; after a link has come or gone, a task has left the queue, or a player has logged in; and
/// after a task that gave a value.
pub fn readiness()
    ensures opens { OpensReady }
    ensures ticks { TicksAside }
    ensures open { LinksOpen }
    ensures close { LinksClose }
    ensures leave { TasksLeave }
    ensures values { ValuesLeaveReady }
    ensures log_in { PlayersLogIn }
{}

/// A verb that begins a task, and a task that waited, are under way.
pub fn beginnings()
    ensures begin { BeginningsStand }
    ensures go_on { GoingOnStands }
{}
