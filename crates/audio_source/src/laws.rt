//! What holds of the frames of opened sources.
ghost use Rattle.audio_source.specs.Laws.{FramesAreTheFiles, ListsHoldTheFrames};

/// Where the media holds the files that were opened, the frames of a source are the sound of its file.
#[tactic(auto, using(crate::proofs::FrameLaws::frames_are_the_files))]
pub fn frames_are_the_files()
    ensures { FramesAreTheFiles }
{}

/// The lists of frames that a view tells hold the samples of the sources, and 0 outside.
#[tactic(auto, using(crate::proofs::FrameLaws::lists_hold_the_frames))]
pub fn lists_hold_the_frames()
    ensures { ListsHoldTheFrames }
{}
