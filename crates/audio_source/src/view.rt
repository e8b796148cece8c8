//! Sources with their media, as one who reads frames sees them.
ghost use Rattle.std.specs.Prelude.{◌≡◌};
ghost use Rattle.audio_source.specs.Opened.{channels_of};

use crate::long::frames_by_spans;
use crate::sources::Sources;
use ses_io::{Failed, Media};
use session_model::Frames;

/// Sources joined with the media that holds their files.
#[derive(Drop)]
pub struct SourceView<'a, M> {
    pub sources: &'a mut Sources,
    pub media: &'a mut M,
}

impl<'a, M: Media> Frames for SourceView<'a, M> {
    ghost use Rattle.std.specs.Prelude.{ℕ, List, slice_index};
    ghost use Rattle.std.specs.Borrow.{GName};
    ghost use Rattle.ses_io.specs.Files.{Files};
    ghost use Rattle.audio_source.specs.Opened.{OpenedSource, channels_of};
    ghost use Rattle.audio_source.specs.Told.{all_told};
    ghost use Rattle.audio_source.specs.Lines.{HoldsAsRead};

    ghost outside = { record {
      tells = λ v. M.outside.tells × HoldsAsRead (M.outside.files v.media.now) v.sources.now;
      channels = λ v. channels_of v.sources.now.opened;
      frames = λ v. all_told (M.outside.files v.media.now) v.sources.now.opened;
      faults = λ v. M.outside.read_faults v.media.now;
    } };

    ghost Rest = { (GName × GName) × (List OpenedSource × (Files × ℕ)) };

    ghost rest = { λ v. (
      (v.sources.ghost_name, v.media.ghost_name),
      (
        v.sources.now.opened,
        (M.outside.files v.media.now, M.outside.write_faults v.media.now),
      ),
    ) };

    fn frames(&mut self, source: u32, from: u64, out: &mut [i32]) -> Result<(), Failed> {
        match frames_by_spans(self.sources, self.media, source, from, out) {
            Ok(()) => Ok(()),
            Err(_) => Err(Failed),
        }
    }
}
