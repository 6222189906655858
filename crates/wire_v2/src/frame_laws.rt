//! Laws of frames.
ghost use Rattle.wire_v2.specs.FrameLaws.{FramesAgree};

/// A frame has the JSON value of the frame of the definitions that it stands for.
pub fn frames_agree()
    ensures { FramesAgree }
{}
