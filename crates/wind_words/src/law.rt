ghost use Rattle.wind_words.specs.Rule.{WonOnce};

/// Between any two steps, whatever the schedule, each wind was opened, won and collected at most once, by
/// all passes together.
pub fn winds_are_won_once()
    ensures { WonOnce }
{}
