//! Why a WAV file, the file of a source or an input is refused, in words.
ghost use Rattle.std.specs.Prelude.{◌≡◌, ◌+◌, ◌≤◌, ◌++◌, length};
ghost use Rattle.fault_lines.specs.File.{wav_words, file_words, input_words};

use crate::line::Line;
use audio_source::FileRefusal;
use cycle_journal::InputRefusal;
use wav_codec::WavRefusal;

impl Line {
    fn wav(self, why: &WavRefusal) -> Line
        requires { length self.text.bytes + 51 ≤ 96 }
        ensures bytes { result.text.bytes ≡ self.text.bytes ++ wav_words why.now }
        ensures long { length result.text.bytes ≤ length self.text.bytes + 51 }
    {
        match why {
            WavRefusal::NotRiff => self.word("not-riff"),
            WavRefusal::NotWave => self.word("not-wave"),
            WavRefusal::HeadTooLong(place) => self.word("head-too-long ").number(*place),
            WavRefusal::NoData => self.word("no-data"),
            WavRefusal::NoFormat => self.word("no-format"),
            WavRefusal::FormatShort(size) => self.word("format-short ").number(u64::from(*size)),
            WavRefusal::Format(tag) => self.word("format ").number(u64::from(*tag)),
            WavRefusal::Channels(count) => self.word("channels ").number(u64::from(*count)),
            WavRefusal::Bits(count) => self.word("bits ").number(u64::from(*count)),
            WavRefusal::Rate(rate) => self.word("rate ").number(u64::from(*rate)),
            WavRefusal::Align(align) => self.word("align ").number(u64::from(*align)),
            WavRefusal::Truncated { want, have } => self.word("truncated ").numbers(*want, *have),
        }
    }

    /// The line with the refusal of a source's file more.
    pub(crate) fn file(self, why: &FileRefusal) -> Line
        requires { length self.text.bytes + 57 ≤ 96 }
        ensures bytes { result.text.bytes ≡ self.text.bytes ++ file_words why.now }
        ensures long { length result.text.bytes ≤ length self.text.bytes + 57 }
    {
        match why {
            FileRefusal::Absent => self.word("absent"),
            FileRefusal::Wav(why) => self.wav(why),
            FileRefusal::RateDiffers { has, want } => {
                let line = self.word("rate-differs ");
                line.numbers(u64::from(*has), u64::from(*want))
            }
            FileRefusal::ChannelsDiffer { has, want } => {
                let line = self.word("channels-differ ");
                line.numbers(u64::from(*has), u64::from(*want))
            }
        }
    }

    /// The line with the refusal of an input more.
    pub(crate) fn input(self, why: &InputRefusal) -> Line
        requires { length self.text.bytes + 56 ≤ 96 }
        ensures bytes { result.text.bytes ≡ self.text.bytes ++ input_words why.now }
        ensures long { length result.text.bytes ≤ length self.text.bytes + 56 }
    {
        match why {
            InputRefusal::Wav(why) => self.wav(why),
            InputRefusal::RateDiffers { has, want } => {
                let line = self.word("rate-differs ");
                line.numbers(u64::from(*has), u64::from(*want))
            }
            InputRefusal::InputChannels { has, want } => {
                let line = self.word("input-channels ");
                line.numbers(u64::from(*has), u64::from(*want))
            }
        }
    }
}
