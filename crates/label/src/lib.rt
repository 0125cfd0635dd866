// The figure on the camera's label.
#![tactic(auto)]

ghost use Rattle.stacking.specs.Label.{MostFrames};

// The most frames in a stack, with product shift 3 and the sum from zero.
pub fn most_frames() -> u16
    ensures { MostFrames result }
{
    127
}
