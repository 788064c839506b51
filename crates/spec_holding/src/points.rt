//! Laws of the points of a construct: what it holds there is what its next part, or its step, wants.
ghost use Rattle.spec_holding.specs.Points.{BeginningsReach, ValuesReach, TargetsReach, EndsReach};

/// Where a construct begins; after a part that has a value; after a target; after a part without a value.
pub fn reaching()
    ensures beginnings { BeginningsReach }
    ensures values { ValuesReach }
    ensures targets { TargetsReach }
    ensures ends { EndsReach }
{}
