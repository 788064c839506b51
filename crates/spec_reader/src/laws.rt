//! What the machine reads is what the definitions read.
ghost use Rattle.spec_reader.specs.Laws.{StepKeeps, StepWorks, StepBeforeFault, StartMeans, EndMeans, TextsReadToEnd};

/// A step of the machine keeps what is still to be read, and leaves no more tokens than there were.
pub fn steps()
    ensures { StepKeeps }
{}

/// A step that is not the last does a part of the work that is left: the machine ends, after a number of steps in proportion to the tokens.
pub fn work()
    ensures { StepWorks }
{}

/// A token that is none stands for the end of the text, whatever the step.
pub fn faulty_tokens()
    ensures { StepBeforeFault }
{}

/// From the start of a text the steps come to an end, and what has come out there is the text's tree, or its first fault.
pub fn whole_texts()
    ensures start { StartMeans }
    ensures end { EndMeans }
    ensures read { TextsReadToEnd }
{}
