//! How a run ended, and the number that the program ends with.
ghost use Rattle.std.specs.Prelude.{◌≡◌};
ghost use Rattle.cycle_journal.specs.Status.{number_of};

use audio_source::FileRefusal;
use ses_units::Name;
use session_model::SessionRefusal;
use wav_codec::WavRefusal;

/// Why an input that isn't empty isn't recorded: the first of these that holds.
#[derive(Clone, Copy, PartialEq, Eq)]
pub enum InputRefusal {
    /// Its head isn't read.
    Wav(WavRefusal),
    /// It has other frames per second than the session.
    RateDiffers { has: u32, want: u32 },
    /// It has fewer channels than a track of the session takes from it.
    InputChannels { has: u16, want: u16 },
}

/// How a run ended (own). NoMemory may stand in place of every other status.
#[derive(Clone, Copy, PartialEq, Eq)]
pub enum Status {
    /// All was written, and no count of faults rose. Its number is 0.
    Done,
    /// The words are no command: 1.
    Usage,
    /// The session is refused: 2.
    Session(SessionRefusal),
    /// The file of the source of this name is refused: 3.
    SourceFile(Name, FileRefusal),
    /// A call that asks for a file's size or reads it failed, and the media's count of these rose: 4.
    ReadFault,
    /// A call that writes a file of the media failed, and the media's count of these rose: 5.
    WriteFault,
    /// A read of the input failed, and its count rose: 6.
    InputFault,
    /// A write of the master failed, and its count rose: 7.
    MasterFault,
    /// A read of the control lines failed, and its count rose: 8.
    ControlFault,
    /// A write of the replies failed, and its count rose: 9.
    OutFault,
    /// This line of the report, from 1, isn't lawful, or the master differs there: 10.
    Refuted(u64),
    /// This line of the report, from 1, isn't in the grammar: 11.
    BadReport(u64),
    /// The head of an input that isn't empty is refused: 12.
    BadInput(InputRefusal),
    /// A call answered want of memory: 13.
    NoMemory,
    /// The media has a file whose name begins with these takes' name: 14.
    TakesExist(Name),
    /// Control gave 16,777,216 bytes, and no accepted `quit` stood in them: 17.
    ControlTooLong,
}

impl Status {
    /// The number that the program ends with.
    pub fn number(&self) -> u8
        ensures { result ≡ number_of self.now }
    {
        match self {
            Status::Done => 0,
            Status::Usage => 1,
            Status::Session(_) => 2,
            Status::SourceFile(_, _) => 3,
            Status::ReadFault => 4,
            Status::WriteFault => 5,
            Status::InputFault => 6,
            Status::MasterFault => 7,
            Status::ControlFault => 8,
            Status::OutFault => 9,
            Status::Refuted(_) => 10,
            Status::BadReport(_) => 11,
            Status::BadInput(_) => 12,
            Status::NoMemory => 13,
            Status::TakesExist(_) => 14,
            Status::ControlTooLong => 17,
        }
    }
}
