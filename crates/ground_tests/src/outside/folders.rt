//! A real folder as a media, and its files as sources and sinks.
use super::files::are_made;
use super::{Call, does_all};
use ses_files::{FilesRead, FolderMedia};
use ses_io::{Failed, Media, NoMemory};
use std::{env, fs, process};

const BEFORE: &[Call] = &[
    Call::Any("", Ok(false)),
    // an absent file has no size, and reads as an empty one
    Call::Read("a.wav", 0, 4, Ok((0, *b"...."))),
    Call::Size("a.wav", Ok(None)),
    Call::Append("a.wav", b"", Ok(0)),
    Call::Size("a.wav", Ok(Some(0))),
    // what was written is read
    Call::Append("a.wav", b"abc", Ok(3)),
    Call::Read("a.wav", 0, 4, Ok((3, *b"abc."))),
    Call::Size("a.wav", Ok(Some(3))),
    Call::Append("a.wav", b"def", Ok(3)),
    Call::Read("a.wav", 0, 4, Ok((4, *b"abcd"))),
    Call::Size("a.wav", Ok(Some(6))),
    Call::Append("a.wav", b"ghi", Ok(3)),
    Call::Size("a.wav", Ok(Some(9))),
];

const AFTER: &[Call] = &[
    Call::Read("a.wav", 0, 4, Ok((4, *b"aXYd"))),
    Call::Read("a.wav", 7, 4, Ok((2, *b"hi.."))),
    Call::Read("a.wav", 9, 4, Ok((0, *b"...."))),
    Call::Read("a.wav", 99, 4, Ok((0, *b"...."))),
    // a prefix is found among the names
    Call::Append("take-t-1.wav", b"a", Ok(1)),
    Call::Any("take-", Ok(true)),
    Call::Any("take-t-1.wav", Ok(true)),
    Call::Any("ake", Ok(false)),
    Call::Any("take-t-1.wav2", Ok(false)),
    // a path that is no file fails
    Call::Append(".", b"a", Err(Failed)),
    Call::Read(".", 0, 4, Err(Failed)),
    Call::Append("a.wav/b.wav", b"a", Err(Failed)),
    Call::Read("a.wav/b.wav", 0, 4, Err(Failed)),
    Call::Size("a.wav/b.wav", Err(Failed)),
];

/// Writes to an absent file, within a file, and to paths that are no files.
const WRITES: &[(&str, u64, &[u8], Result<usize, Failed>)] = &[
    ("b.wav", 0, b"a", Err(Failed)),
    ("a.wav", 1, b"XY", Ok(2)),
    (".", 0, b"a", Err(Failed)),
    ("a.wav/b.wav", 0, b"a", Err(Failed)),
];

/// After another program took the file away: a read is a fault once, and then the file is absent; it isn't made again.
const TAKEN_AWAY: &[Call] = &[
    Call::Read("a.wav", 0, 4, Err(Failed)),
    Call::Read("a.wav", 0, 4, Ok((0, *b"...."))),
    Call::Append("a.wav", b"new", Err(Failed)),
    Call::Append("a.wav", b"new", Err(Failed)),
    Call::Size("a.wav", Ok(None)),
    Call::Append("c.wav", b"new", Ok(3)),
    Call::Read("c.wav", 0, 4, Ok((3, *b"new."))),
];

/// After another file was put in its place.
const REPLACED: &[Call] = &[
    Call::Read("c.wav", 0, 4, Err(Failed)),
    Call::Read("c.wav", 0, 4, Ok((1, *b"a..."))),
];

// Whether files that other programs take away or replace are missed.
fn are_missed(rt: HostRuntime, path: &str, media: &mut FolderMedia<HostRuntime>) -> bool {
    let Ok(file) = format!(in rt.alloc(); "{path}/a.wav") else {
        return false;
    };
    let Ok(later) = format!(in rt.alloc(); "{path}/c.wav") else {
        return false;
    };
    let Ok(other) = format!(in rt.alloc(); "{path}/take-t-1.wav") else {
        return false;
    };
    fs::remove_file(&rt, file.as_str()).is_ok()
        && does_all(media, TAKEN_AWAY)
        && fs::rename(&rt, other.as_str(), later.as_str()).is_ok()
        && does_all(media, REPLACED)
}

// Whether more files than stay open answer as if they did: each grows twice by its letter, and is read after that.
fn many_serve(rt: HostRuntime, media: &mut FolderMedia<HostRuntime>) -> bool {
    for turn in 0..3_usize {
        for n in 0..70_u8 {
            let Ok(name) = format!(in rt.alloc(); "many-{n}.wav") else {
                return false;
            };
            let mut found = [0; 4];
            let right = match turn {
                2 => media.read_at(name.as_str(), 0, &mut found) == Ok(2) && found == [n, n, 0, 0],
                _ => media.append(name.as_str(), &[n]) == Ok(1),
            };
            if !right {
                return false;
            }
        }
    }
    true
}

fn are_written(media: &mut FolderMedia<HostRuntime>) -> bool {
    for (name, at, bytes, want) in WRITES {
        if media.write_at(name, *at, bytes) != *want {
            return false;
        }
    }
    true
}

// Whether a folder serves while it is there, and has no names when it is gone.
fn serves(rt: HostRuntime, path: &str, media: &mut FolderMedia<HostRuntime>) -> bool {
    let made = fs::create_dir(&rt, path).is_ok();
    let right = does_all(media, BEFORE)
        && are_written(media)
        && does_all(media, AFTER)
        && are_made(rt, path)
        && are_missed(rt, path, media)
        && many_serve(rt, media);
    let gone = fs::remove_dir_all(&rt, path).is_ok();
    made && right && gone && does_all(media, &[Call::Any("", Err(Failed))])
}

fn media(rt: HostRuntime, path: &str) -> Result<FolderMedia<HostRuntime>, NoMemory> {
    let alloc = rt.alloc();
    let folder = String::from_str(alloc, path)?;
    Ok(FolderMedia::new(rt, folder, FilesRead::new(alloc)?))
}

fn fresh_serves(rt: HostRuntime, path: &str) -> bool {
    match media(rt, path) {
        Ok(mut media) => serves(rt, path, &mut media),
        Err(NoMemory) => false,
    }
}

fn temporary_serves(rt: HostRuntime) -> bool {
    let id = process::id(rt.process());
    match env::temp_dir(&rt) {
        Ok(temp) => match format!(in rt.alloc(); "{}/ground_tests-{id}", temp.as_str()) {
            Ok(path) => fresh_serves(rt, path.as_str()),
            Err(_) => false,
        },
        Err(_) => false,
    }
}

#[test]
fn a_folder_and_its_files_answer_as_they_have_to(rt: HostRuntime) {
    assert!(rt; temporary_serves(rt));
}
