//! A readable world within its bounds is readable after each list of steps.
ghost use Rattle.readable_worlds.specs.Staying.{StaysReadable, FixtureStays};

/// Of any such world.
pub fn staying()
    ensures { StaysReadable }
{}

/// Of the built-in one.
pub fn fixture()
    ensures { FixtureStays }
{}
