ghost use Rattle.restart.specs.Rounds.{MarkFollows, BuiltFollows, WritesFollow, TicksFollow};
ghost use Rattle.restart.specs.Rounds.{StepFollows, RoundFollows, FirstRoundFollows, AllAreTaken};

/// Laws: a store keeps following the images through marks, writes, ticks, takes and openings. So a
/// round's words are the world at its tick once all its cells are taken.
pub(crate) fn stores_follow()
    ensures mark { MarkFollows }
    ensures built { BuiltFollows }
    ensures writes { WritesFollow }
    ensures ticks { TicksFollow }
    ensures step { StepFollows }
    ensures round { RoundFollows }
    ensures first_round { FirstRoundFollows }
    ensures all_taken { AllAreTaken }
{}
