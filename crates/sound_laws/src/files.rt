//! The laws of files that are written and read.

ghost use Rattle.sound_laws.specs.Files.{WrittenHeadIsRead, WrittenSoundIsRead, ExtensibleHeadIsRead, ExtensibleSoundsAsPlain, LongerWalkIsTheSame};

/// A file that is written has, when it is read, the form and the number of frames that were written,
/// whether or not its size was told before.
#[tactic(auto, using(crate::proofs::WrittenLaws::written_head_is_read))]
pub fn written_head_is_read()
    ensures { WrittenHeadIsRead }
{}

/// Each sample of a file that is written is, when it is read, what the file's bits keep of it.
#[tactic(auto, using(crate::proofs::SoundLaws::written_sound_is_read))]
pub fn written_sound_is_read()
    ensures { WrittenSoundIsRead }
{}

/// A file with the extensible format and PCM's subformat is read, whatever its valid bits and its
/// mask of channels; its sound begins at byte 68.
#[tactic(auto, using(crate::proofs::ExtensibleLaws::extensible_head_is_read))]
pub fn extensible_head_is_read()
    ensures { ExtensibleHeadIsRead }
{}

/// An extensible file has at each frame and channel the sound of the plain file with the same
/// bytes of sound.
#[tactic(auto, using(crate::proofs::ExtensibleLaws::extensible_sounds_as_plain))]
pub fn extensible_sounds_as_plain()
    ensures { ExtensibleSoundsAsPlain }
{}

/// A file has fewer chunks than bytes: a walk over more of them finds the same head or refusal.
#[tactic(auto, using(crate::proofs::WalkLaws::longer_walk_is_the_same))]
pub fn longer_walk_is_the_same()
    ensures { LongerWalkIsTheSame }
{}
