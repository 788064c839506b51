//! What holds of every stream.

ghost use Rattle.std.specs.Prelude.{◌≡◌, ℕ, List, []};
ghost use Rattle.std.specs.List.{AllByRecursion};
ghost use Rattle.telnet_line.specs.Telnet.{StreamUnit, IsCut, Event, Spells, IsText, IsEvent};
ghost use Rattle.telnet_line.specs.TelnetReading.{Reading, HasRead};
ghost use Rattle.telnet_line.specs.TelnetSteps.{fresh, reading_after, events_after};

/// Every stream is cut in units in one way, up to a rest that is no whole unit.
pub fn one_cutting()
    ensures some { (stream : List ℕ) → (units : List StreamUnit) × (rest : List ℕ) × IsCut stream units rest }
    ensures units { (stream : List ℕ) (units others : List StreamUnit) (rest left : List ℕ) → IsCut stream units rest → IsCut stream others left → units ≡ others }
    ensures rest { (stream : List ℕ) (units others : List StreamUnit) (rest left : List ℕ) → IsCut stream units rest → IsCut stream others left → rest ≡ left }
{}

/// A byte at a time, the lines and replies are those that the units of the whole stream spell.
pub fn byte_by_byte()
    ensures read { (stream : List ℕ) → HasRead stream (events_after fresh stream) (reading_after fresh stream) }
    ensures events { (stream : List ℕ) (events : List Event) → Spells stream events → events ≡ events_after fresh stream }
    ensures reading { (stream : List ℕ) (events : List Event) (reading : Reading) → HasRead stream events reading → reading ≡ reading_after fresh stream }
{}

/// Each line of a stream, the one that has not ended too, has at most 4,096 characters, each a tab or from space to tilde.
pub fn lines_are_texts()
    ensures ended { (stream : List ℕ) (events : List Event) → Spells stream events → AllByRecursion IsEvent events }
    ensures begun { (stream : List ℕ) (events : List Event) (reading : Reading) → HasRead stream events reading → IsText reading.line }
{}
