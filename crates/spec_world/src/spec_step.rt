//! What goes into a list of steps, and what comes out of it, by definitions alone: steps with their ranges, and outcomes.
