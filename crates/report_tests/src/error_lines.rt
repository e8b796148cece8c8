//! The last line of out for each status, worked out by hand.
use audio_source::FileRefusal;
use cycle_journal::{InputRefusal, Status};
use fault_lines::{FaultWords, write_fault};
use ses_io::{Failed, MemSink, NoMemory};
use ses_units::Name;
use session_model::{Key, Part, Place, SessionRefusal};
use std::alloc::Global;
use wav_codec::WavRefusal;

// A place, by its part, its row and its item.
const fn at(part: Part, row: u32, item: u32) -> Place {
    Place { part, row, item }
}

const RUNS: [(Status, &str); 12] = [
    (Status::Done, ""),
    (Status::Usage, "error usage\n"),
    (Status::ReadFault, "error read-fault\n"),
    (Status::WriteFault, "error write-fault\n"),
    (Status::InputFault, "error input-fault\n"),
    (Status::MasterFault, "error master-fault\n"),
    (Status::ControlFault, "error control-fault\n"),
    (Status::OutFault, ""),
    (Status::Refuted(12), "error refuted 12\n"),
    (
        Status::BadReport(u64::MAX),
        "error bad-report 18446744073709551615\n",
    ),
    (Status::NoMemory, "error no-memory\n"),
    (Status::ControlTooLong, "error control-too-long\n"),
];

const SESSIONS: [(SessionRefusal, &str); 3] = [
    (SessionRefusal::Absent, "error session absent\n"),
    (
        SessionRefusal::TooLong(8_388_609),
        "error session too-long 8388609\n",
    ),
    (SessionRefusal::NotToml, "error session not-toml\n"),
];

// Those at a place of the session.
fn placed() -> [(SessionRefusal, &'static str); 7] {
    [
        (
            SessionRefusal::Unknown(at(Part::Region, 1, 1)),
            "error session unknown region 1 1\n",
        ),
        (
            SessionRefusal::Unknown(at(Part::Master, 1, 0)),
            "error session unknown master 1\n",
        ),
        (
            SessionRefusal::Missing(at(Part::TrackSend, 2, 8), Key::To),
            "error session missing track-send 2 8 to\n",
        ),
        (
            SessionRefusal::Kind(at(Part::Top, 1, 0), Key::Bus),
            "error session kind top 1 bus\n",
        ),
        (
            SessionRefusal::Range(at(Part::Session, 1, 0), Key::Block),
            "error session range session 1 block\n",
        ),
        (
            SessionRefusal::Range(at(Part::Region, 32, 256), Key::FadeOut),
            "error session range region 32 256 fade_out\n",
        ),
        (
            SessionRefusal::Range(at(Part::BusSend, 3, 1), Key::Gain),
            "error session range bus-send 3 1 gain\n",
        ),
    ]
}

const INPUTS: [(InputRefusal, &str); 4] = [
    (
        InputRefusal::Wav(WavRefusal::Align(3)),
        "error input align 3\n",
    ),
    (
        InputRefusal::Wav(WavRefusal::HeadTooLong(16_777_217)),
        "error input head-too-long 16777217\n",
    ),
    (
        InputRefusal::RateDiffers {
            has: 44_100,
            want: 48_000,
        },
        "error input rate-differs 44100 48000\n",
    ),
    (
        InputRefusal::InputChannels { has: 1, want: 2 },
        "error input input-channels 1 2\n",
    ),
];

// Of the source `lead`.
const SOURCES: [(FileRefusal, &str); 5] = [
    (FileRefusal::Absent, "error source lead absent\n"),
    (
        FileRefusal::Wav(WavRefusal::Format(3)),
        "error source lead format 3\n",
    ),
    (
        FileRefusal::Wav(WavRefusal::Truncated { want: 16, have: 10 }),
        "error source lead truncated 16 10\n",
    ),
    (
        FileRefusal::RateDiffers {
            has: 44_100,
            want: 48_000,
        },
        "error source lead rate-differs 44100 48000\n",
    ),
    (
        FileRefusal::ChannelsDiffer { has: 2, want: 1 },
        "error source lead channels-differ 2 1\n",
    ),
];

fn named(lead: Name) -> [(Status, &'static str); 4] {
    [
        (Status::TakesExist(lead), "error takes-exist lead\n"),
        (
            Status::Session(SessionRefusal::Twice(lead)),
            "error session twice lead\n",
        ),
        (
            Status::Session(SessionRefusal::RegionTwice(lead, 999_999)),
            "error session region-twice lead 999999\n",
        ),
        (
            Status::Session(SessionRefusal::NotBus(lead)),
            "error session not-bus lead\n",
        ),
    ]
}

fn is_written(alloc: Global, status: &Status, line: &str) -> bool {
    let mut out = MemSink::new(alloc, Vec::new(alloc));
    write_fault(&mut out, status) == Ok(()) && out.bytes() == line.as_bytes()
}

// Whether the longest line is written.
fn longest_is_written(alloc: Global) -> bool {
    let Ok(name) = Name::new("abcdefghijklmnopqrstuvwx") else {
        return false;
    };
    let why = FileRefusal::Wav(WavRefusal::Truncated {
        want: u64::MAX,
        have: u64::MAX,
    });
    let line =
        "error source abcdefghijklmnopqrstuvwx truncated 18446744073709551615 18446744073709551615\n";
    is_written(alloc, &Status::SourceFile(name, why), line)
}

// Whether a first write that fails is told, and where there is no line none is made.
fn failure_is_told(alloc: Global) -> Result<bool, NoMemory> {
    let mut out = MemSink::new(alloc, vec![in alloc; 1u64]?);
    let silent = write_fault(&mut out, &Status::Done) == Ok(());
    let told = write_fault(&mut out, &Status::Usage) == Err(Failed);
    Ok(silent && told && out.bytes().is_empty())
}

// Whether words print alone.
fn words_print(alloc: Global) -> Result<bool, NoMemory> {
    let words = FaultWords(&Status::Refuted(12));
    Ok(format!(in alloc; "{words}")?.as_str() == "refuted 12")
}

#[test]
fn each_end_of_a_run_has_its_line(rt: HostRuntime) {
    for (row, (status, line)) in RUNS.iter().enumerate() {
        assert!(rt; is_written(rt.alloc(), status, line), "row {row}");
    }
}

#[test]
fn each_refusal_of_a_session_has_its_line(rt: HostRuntime) {
    for (row, (why, line)) in SESSIONS.iter().enumerate() {
        let status = Status::Session(*why);
        assert!(rt; is_written(rt.alloc(), &status, line), "row {row}");
    }
}

#[test]
fn each_refusal_at_a_place_has_its_line(rt: HostRuntime) {
    for (row, (why, line)) in placed().iter().enumerate() {
        let status = Status::Session(*why);
        assert!(rt; is_written(rt.alloc(), &status, line), "row {row}");
    }
}

#[test]
fn each_refusal_of_an_input_has_its_line(rt: HostRuntime) {
    for (row, (why, line)) in INPUTS.iter().enumerate() {
        let status = Status::BadInput(*why);
        assert!(rt; is_written(rt.alloc(), &status, line), "row {row}");
    }
}

#[test]
fn each_refusal_of_a_source_has_its_line(rt: HostRuntime) {
    let Ok(lead) = Name::new("lead") else {
        assert!(rt; false);
        return;
    };
    for (row, (why, line)) in SOURCES.iter().enumerate() {
        let status = Status::SourceFile(lead, *why);
        assert!(rt; is_written(rt.alloc(), &status, line), "row {row}");
    }
}

#[test]
fn each_named_refusal_has_its_line(rt: HostRuntime) {
    let Ok(lead) = Name::new("lead") else {
        assert!(rt; false);
        return;
    };
    for (row, (status, line)) in named(lead).iter().enumerate() {
        assert!(rt; is_written(rt.alloc(), status, line), "row {row}");
    }
    assert!(rt; longest_is_written(rt.alloc()));
}

#[test]
fn a_failed_line_is_told(rt: HostRuntime) {
    assert!(rt; failure_is_told(rt.alloc()) == Ok(true));
    assert!(rt; words_print(rt.alloc()) == Ok(true));
}
