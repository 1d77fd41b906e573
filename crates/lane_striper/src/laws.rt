ghost use Rattle.lane_striper.specs.Gathered.{GatheredIsStriped};

/// What is gathered from the lists of some words is those words.
pub fn gathered_is_striped()
    ensures { GatheredIsStriped }
{}
