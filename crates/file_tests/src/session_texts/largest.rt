//! Texts with as many parts as there may be, and with one more.
use super::is_told;
use super::read::{Form, is_read};
use std::alloc::{AllocError, Global};

const HEAD: &str =
    "[session]\nversion = 1\nrate = 48000\nbits = 16\nchannels = 1\nblock = 4\ndepth = 2\n";

enum Parts {
    Sources,
    Tracks,
    Regions,
    Busses,
}

// Adds so many parts of one kind; each track has these regions.
fn write_parts(
    text: &mut String,
    many: u32,
    parts: &Parts,
    regions: &str,
) -> Result<(), AllocError> {
    for i in 0..many {
        let id = i + 1;
        match parts {
            Parts::Sources => write!(
                text,
                "[[source]]\nname = \"s{i}\"\nfile = \"s{i}.wav\"\nchannels = 1\n"
            ),
            Parts::Tracks => { write!(text, "[[track]]\nname = \"t{i}\"\nchannels = 1\n{regions}") }
            Parts::Regions => write!(
                text,
                "[[track.region]]\nid = {id}\nsource = \"s0\"\nstart = 1\nlength = 8\nat = {id}\nlayer = {}\ngain = 7\nopaque = false\nfade_in = 1\nfade_out = 2\n",
                256 - id % 256
            ),
            Parts::Busses => write!(text, "[[bus]]\nname = \"b{i}\"\nchannels = 1\n"),
        }?;
    }
    Ok(())
}

/// How many sources, tracks, regions on each, and busses.
type Many = (u32, u32, u32, u32);

fn is_written(alloc: Global, text: &mut String, many: Many) -> bool {
    let (sources, tracks, regions, busses) = many;
    let mut list = String::new(alloc);
    text.push_str(HEAD).is_ok()
        && write_parts(text, sources, &Parts::Sources, "").is_ok()
        && write_parts(&mut list, regions, &Parts::Regions, "").is_ok()
        && write_parts(text, tracks, &Parts::Tracks, list.as_str()).is_ok()
        && write_parts(text, busses, &Parts::Busses, "").is_ok()
}

// Whether this is answered for a text with so many; the largest session is read where nothing is said.
fn is_kept(alloc: Global, many: Many, words: &str) -> bool {
    let mut text = String::new(alloc);
    is_written(alloc, &mut text, many)
        && if words.is_empty() {
            is_read(alloc, text.as_bytes(), &Form::Largest)
        } else {
            is_told(alloc, text.as_bytes(), words)
        }
}

const LIMITS: &[(Many, &str)] = &[
    ((65, 1, 1, 0), "range Top 1 0 Source"),
    ((1, 33, 1, 0), "range Top 1 0 Track"),
    ((1, 2, 1, 62), "range Top 1 0 Bus"),
    ((1, 2, 1, 61), "ok"),
    ((1, 1, 257, 0), "range Track 1 0 Region"),
    ((0, 0, 0, 63), "ok"),
    ((64, 32, 256, 31), ""),
];

#[test]
fn arrays_have_limits(rt: HostRuntime) {
    for (many, words) in LIMITS {
        assert!(rt; is_kept(rt.alloc(), *many, words));
    }
}
