//! The law of schedules.
ghost use Rattle.speculate.specs.Events.{StaysHonest};

/// Whatever is claimed, posted, lost and advanced, and in whichever order: the board is honest after it.
pub fn schedules()
    ensures { StaysHonest }
{}
