ghost use Rattle.v2_client.specs.Frames.{FramesGoOn, OneRowOfFrames};

/// A stream has at most one row of frames, and one rest behind it: unfinished, or one bad field at one place. It does nothing:
/// its contract is the law. So what `FrameReader` gives is the same whatever the pieces were.
pub fn one_row_of_frames()
    ensures { OneRowOfFrames }
{}

/// The frames of more bytes of a stream begin with those of fewer, and a bad field stays.
pub fn frames_go_on()
    ensures { FramesGoOn }
{}
