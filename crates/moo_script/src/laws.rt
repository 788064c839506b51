//! Laws of lines and scripts.
ghost use Rattle.std.specs.Prelude.{◌≡◌, ℕ, List};
ghost use Rattle.spec_world.specs.Step.{Step};
ghost use Rattle.moo_script.specs.declared.fault.LineFault.{LineFault};
ghost use Rattle.moo_script.specs.declared.script.Command.{Command};
ghost use Rattle.moo_script.specs.Lines.{Says, IsFaulty};
ghost use Rattle.moo_script.specs.Scripts.{IsScript, Fault};

/// A line says one thing at most, and then it has no fault; and no line has two kinds of fault.
pub fn one_answer()
    ensures one_command { (bs : List ℕ) (c d : Command) → Says bs c → Says bs d → c ≡ d }
    ensures no_fault { (bs : List ℕ) (c : Command) (k : LineFault) → Says bs c → IsFaulty bs k → ⊥ }
    ensures one_fault { (bs : List ℕ) (j k : LineFault) → IsFaulty bs j → IsFaulty bs k → j ≡ k }
{}

/// A script has one reading: it gives one list of steps at most, and then it has no fault; and no script has two first faults.
pub fn one_reading()
    ensures one_list { (script : List ℕ) (first : ℕ) (steps others : List Step) → IsScript script first steps → IsScript script first others → steps ≡ others }
    ensures no_fault { (script : List ℕ) (first line : ℕ) (steps : List Step) (kind : LineFault) → IsScript script first steps → Fault script line kind → ⊥ }
    ensures one_fault { (script : List ℕ) (line other : ℕ) (kind another : LineFault) → Fault script line kind → Fault script other another → (line ≡ other) × (kind ≡ another) }
{}
