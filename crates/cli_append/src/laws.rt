//! Laws of what `follow` does, each the contract of a function that does nothing.

ghost use Rattle.cli_promises.specs.FollowLaws.{
  FollowsItsLeader,
  FramesAreDelivered,
  InputsAreDelivered,
  InputsHaveFrames,
  KnownIsHeld,
};

/// A block that a line calls known is held, so this line promises that it stays.
pub fn known_is_held()
    ensures { KnownIsHeld }
{}

/// A frame of an input is a delivery: its first turn, and all further ones.
pub fn frames_are_delivered()
    ensures { FramesAreDelivered }
{}

/// Each input has frames, maybe none.
pub fn inputs_have_frames()
    ensures { InputsHaveFrames }
{}

/// An input is the deliveries of its frames, one after another.
pub fn inputs_are_delivered()
    ensures { InputsAreDelivered }
{}

/// Where the log is a prefix of a leader's chain and the input has only blocks of this chain, in
/// any order, the log stays a prefix of it.
pub fn follows_its_leader()
    ensures { FollowsItsLeader }
{}
