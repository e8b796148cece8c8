//! What holds of the sound of a stream whose head was read before.
ghost use Rattle.input_blocks.specs.Laws.{SoundOfTheRest};

/// The sound of a whole file is that of what follows its head.
#[tactic(auto, using(crate::proofs::RestLemmas::sound_of_the_rest))]
pub fn sound_of_the_rest()
    ensures { SoundOfTheRest }
{}
