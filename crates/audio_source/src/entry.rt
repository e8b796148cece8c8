//! One opened source: the name of its file, and what its head said.
use session_model::FileName;
use wav_codec::WavInfo;

/// A source that was opened.
#[derive(Drop)]
pub(crate) struct Entry {
    pub(crate) file: FileName,
    pub(crate) info: WavInfo,
}
