//! The program: the words, the current folder and the standard streams, all given to `run`.
#![tactic(auto)]

mod usage;

use command_words::{Command, command};
use fault_lines::write_fault;
use ses_files::{FileSink, FileSource, FilesRead, FolderMedia, ReadSource, WriteSink};
use ses_io::{NoMemory, World};
use session_run::{Status, run};
use std::alloc::Global;
use std::fs::{File, TryLockError};
use std::io::{ErrorKind, Stdin, Stdout};
use std::process::ExitCode;
use std::sync::Wait;
use std::thread::Threads;
use std::{env, fs};

type Outside = World<
    FolderMedia<HostRuntime>,
    FileSource<HostRuntime>,
    ReadSource<Stdin>,
    FileSink<HostRuntime>,
    WriteSink<Stdout>,
>;

// The words after the program's name. Where one is no text there are none, which is no command.
fn texts(rt: HostRuntime) -> Result<Vec<String>, NoMemory> {
    let alloc = rt.alloc();
    match env::args(&rt) {
        Ok(all) => Ok(all.skip(1).collect(alloc)?),
        Err(e) if e.kind() == ErrorKind::InvalidData => Ok(Vec::new(alloc)),
        Err(_) => Err(NoMemory),
    }
}

fn words(alloc: Global, texts: &[String]) -> Result<Vec<&str>, NoMemory> {
    let mut words = Vec::new(alloc);
    for text in texts {
        words.push(text.as_str())?;
    }
    Ok(words)
}

fn outside(rt: HostRuntime) -> Result<Outside, NoMemory> {
    let alloc = rt.alloc();
    let read = FilesRead::new(alloc)?;
    let input = String::from_str(alloc, "device-in.wav")?;
    let master = String::from_str(alloc, "device-out.wav")?;
    Ok(World {
        media: FolderMedia::new(rt, String::new(alloc), read.share()?),
        input: FileSource::new(rt, input, read.share()?),
        control: ReadSource::new(rt.stdin()),
        master: FileSink::new(rt, master, read),
        out: WriteSink::new(rt.stdout()),
    })
}

// Tells a status that comes before anything is done. Where this write fails too the status stays.
fn told(rt: HostRuntime, status: Status) -> Status {
    let _ = write_fault(&mut WriteSink::new(rt.stdout()), &status);
    status
}

// Whether the words are a command that writes files of the folder.
fn writes_files(words: &[&str]) -> bool {
    match command(words) {
        Some(Command::Render(_) | Command::Export(_) | Command::Play(_)) => true,
        Some(
            Command::Check { .. }
            | Command::Migrate { .. }
            | Command::Verify(_)
            | Command::Gen { .. },
        )
        | None => false,
    }
}

// Whether a run writes into the folder, as long as it keeps the folder locked.
#[derive(Drop)]
enum Folder {
    Ours(File),
    AnotherRuns,
    // The system has no such lock.
    Unlocked,
}

fn lock_folder(rt: HostRuntime) -> Folder {
    let Ok(folder) = fs::open(&rt, ".") else {
        return Folder::Unlocked;
    };
    match folder.try_lock() {
        Ok(()) => Folder::Ours(folder),
        Err(TryLockError::WouldBlock) => Folder::AnotherRuns,
        Err(TryLockError::Error(_)) => Folder::Unlocked,
    }
}

// The run of the words, and what standard error shows beside it.
fn run_by<R>(handles: &R, rt: HostRuntime, words: &[&str], world: Outside) -> Status
where
    R: Threads + Wait + Sync,
{
    let status = run(handles, rt.alloc(), words, world).status;
    if let Status::Usage = &status {
        usage::tell(&rt, rt.alloc(), words);
    }
    status
}

fn started<R>(handles: &R, rt: HostRuntime, words: &[&str], world: Outside) -> Status
where
    R: Threads + Wait + Sync,
{
    if !writes_files(words) {
        return run_by(handles, rt, words, world);
    }
    match lock_folder(rt) {
        Folder::AnotherRuns => {
            let _ = eprintln!(rt; "another run writes into this folder: wait for its end");
            told(rt, Status::MasterFault)
        }
        Folder::Ours(_) | Folder::Unlocked => run_by(handles, rt, words, world),
    }
}

fn main(rt: HostRuntime) -> ExitCode {
    let alloc = rt.alloc();
    let Ok(texts) = texts(rt) else {
        return ExitCode::from(told(rt, Status::NoMemory).number());
    };
    let (Ok(words), Ok(world)) = (words(alloc, texts.as_slice()), outside(rt)) else {
        return ExitCode::from(told(rt, Status::NoMemory).number());
    };
    ExitCode::from(started(&rt, rt, words.as_slice(), world).number())
}
