//! Files in memory and in a folder, opened and read; each byte of them is written by hand after RIFF WAVE.
mod by_ffmpeg;
mod by_sox;
mod depths;
mod extensible;
mod faults;
mod held;
mod refused;

use audio_source::{OpenRefusal, ReadFault, Sources};
use ses_files::{FilesRead, FolderMedia};
use ses_io::{Media, MemMedia, NoMemory};
use ses_units::Name;
use session_model::{FileName, SourceDecl, SourceList};
use std::alloc::Global;
use std::{env, fs, process};

/// The parts of a file `a.wav`, the sources with their channels, the rate, and what has to come of it.
struct Case {
    parts: &'static [&'static [u8]],
    files: &'static [(&'static str, u16)],
    rate: u32,
    want: Want,
}

enum Want {
    Opened,
    Refused(OpenRefusal),
    /// Six samples of the first source from a frame on.
    Heard(u64, [i32; 6]),
}

/// Puts a file of these parts into a media.
fn put(alloc: Global, media: &mut MemMedia, name: &str, parts: &[&[u8]]) -> bool {
    match parts.concat(alloc) {
        Ok(bytes) => media.put(name, bytes).is_ok(),
        Err(_) => false,
    }
}

fn push(alloc: Global, list: &mut SourceList, file: &str, channels: u16) -> bool {
    match (Name::new("a"), FileName::new(alloc, file)) {
        (Ok(name), Ok(file)) if !list.is_full() => {
            list.push(SourceDecl {
                name,
                file,
                channels,
            });
            true
        }
        _ => false,
    }
}

/// Sources of these files, each with its channels.
pub(crate) fn list(alloc: Global, files: &[(&str, u16)]) -> Option<SourceList> {
    let mut list = SourceList::new(alloc, 3).ok()?;
    for (file, channels) in files {
        if !push(alloc, &mut list, file, *channels) {
            return None;
        }
    }
    Some(list)
}

/// The opened sources of these files.
fn open<M: Media>(
    alloc: Global,
    media: &mut M,
    files: &[(&str, u16)],
    rate: u32,
) -> Result<Sources, OpenRefusal> {
    match list(alloc, files) {
        Some(list) => Sources::new(alloc, media, &list, rate),
        None => Err(OpenRefusal::NoMemory),
    }
}

/// Reads frames of a source, where it is there and `out` holds up to 4,096 whole frames of it.
fn read<M: Media>(
    sources: &mut Sources,
    media: &mut M,
    source: u32,
    from: u64,
    out: &mut [i32],
) -> Option<Result<(), ReadFault>> {
    let channels = sources.channels(source)?;
    if channels == 0 || !out.len().is_multiple_of(channels as usize) {
        return None;
    }
    if out.len() > 4096 * channels as usize {
        return None;
    }
    Some(sources.frames(media, source, from, out))
}

/// Whether the samples from a frame on are these, at most six.
fn is_heard<M: Media>(
    sources: &mut Sources,
    media: &mut M,
    source: u32,
    from: u64,
    samples: &[i32],
) -> bool {
    let mut six = [7; 6];
    let out = &mut six[..samples.len().min(6)];
    read(sources, media, source, from, out) == Some(Ok(())) && *out == *samples
}

// Two frames of two channels and 8 bits.
const TWO_FRAMES: &[u8] = b"RIFF\x3e\0\0\0WAVEJUNK\x03\0\0\0\x01\x02\x03\0\
    fmt \x10\0\0\0\x01\0\x02\0\x80\xbb\0\0\0\0\0\0\x02\0\x08\0\
    data\x04\0\0\0\x81\x82\x83\x84LIST\x02\0\0\0\x07\x07";

// Whether the last frame, and what follows, is heard of a file that is written into the folder.
fn is_heard_in_folder(alloc: Global, media: &mut FolderMedia<HostRuntime>) -> bool {
    if media.append("source.wav", TWO_FRAMES) != Ok(TWO_FRAMES.len()) {
        return false;
    }
    match open(alloc, media, &[("source.wav", 2)], 48_000) {
        Ok(mut sources) => is_heard(&mut sources, media, 0, 1, &[196_608, 262_144, 0, 0]),
        Err(_) => false,
    }
}

fn folder_media(rt: HostRuntime, path: &str) -> Result<FolderMedia<HostRuntime>, NoMemory> {
    let alloc = rt.alloc();
    let folder = String::from_str(alloc, path)?;
    Ok(FolderMedia::new(rt, folder, FilesRead::new(alloc)?))
}

// The same of a folder that is made for it, and taken away.
fn is_heard_in(rt: HostRuntime, path: &str) -> bool {
    let made = fs::create_dir(&rt, path).is_ok();
    let heard = match folder_media(rt, path) {
        Ok(mut media) => is_heard_in_folder(rt.alloc(), &mut media),
        Err(NoMemory) => false,
    };
    let gone = fs::remove_dir_all(&rt, path).is_ok();
    made && heard && gone
}

fn temporary_is_heard(rt: HostRuntime) -> bool {
    let id = process::id(rt.process());
    match env::temp_dir(&rt) {
        Ok(temp) => match format!(in rt.alloc(); "{}/source_tests-{id}", temp.as_str()) {
            Ok(path) => is_heard_in(rt, path.as_str()),
            Err(_) => false,
        },
        Err(_) => false,
    }
}

// Whether the case's sources are opened, refused or heard as it says.
fn is_answered(alloc: Global, media: &mut MemMedia, case: &Case) -> bool {
    match open(alloc, media, case.files, case.rate) {
        Ok(mut sources) => match &case.want {
            Want::Opened => true,
            Want::Refused(_) => false,
            Want::Heard(from, samples) => is_heard(&mut sources, media, 0, *from, samples),
        },
        Err(told) => match &case.want {
            Want::Refused(refusal) => told == *refusal,
            _ => false,
        },
    }
}

fn is_right(alloc: Global, case: &Case) -> bool {
    let mut media = MemMedia::new(alloc);
    put(alloc, &mut media, "a.wav", case.parts) && is_answered(alloc, &mut media, case)
}

fn are_right(alloc: Global, cases: &[Case]) -> bool {
    for case in cases {
        if !is_right(alloc, case) {
            return false;
        }
    }
    true
}

#[test]
fn a_file_of_a_folder_is_heard(rt: HostRuntime) {
    assert!(rt; temporary_is_heard(rt));
}

#[test]
fn files_are_heard_or_refused_for_their_first_fault(rt: HostRuntime) {
    assert!(rt; are_right(rt.alloc(), depths::HEARD));
    assert!(rt; are_right(rt.alloc(), by_ffmpeg::BY_FFMPEG));
    assert!(rt; are_right(rt.alloc(), by_sox::BY_SOX));
    assert!(rt; are_right(rt.alloc(), extensible::EXTENSIBLE));
    assert!(rt; are_right(rt.alloc(), refused::REFUSED));
}
