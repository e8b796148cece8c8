//! Runs that are drawn: sessions of up to three tracks, scripts, and what fails.
use crate::case::{Case, Fails, NOTHING};
use crate::draw::Draw;
use ses_io::NoMemory;
use std::alloc::Global;

// Blocks and rings of several sizes, into one channel or two.
const HEADS: &[&str] = &[
    "channels = 1\nblock = 4\ndepth = 2\n",
    "channels = 1\nblock = 4\ndepth = 8\n",
    "channels = 2\nblock = 1\ndepth = 3\n",
    "channels = 2\nblock = 5\ndepth = 2\n",
    "channels = 1\nblock = 16\ndepth = 4\n",
    "channels = 1\nblock = 64\ndepth = 2\n",
];

const HEAD: &str = "[session]\nversion = 1\nrate = 48000\nbits = 16\n";

const FILE: &str = "\n[[source]]\nname = \"a\"\nfile = \"a.wav\"\nchannels = 1\n";

const TRACK: &str = "\n[[track]]\nname = \"t$\"\nchannels = 1\n";

// What a track may have beside.
const ROUTES: &[&str] = &[
    "input = 0\n",
    "input = 0\narm = true\n",
    "input = 0\nout = \"b\"\ngain = ^\n",
    "solo = ?\nmute = ?\n",
    "mode = \"play\"\nlane = [[#, ^], [50, ^]]\n",
    "left = ^\nright = ^\ninput = 0\narm = true\n",
];

const SENDS: &[&str] = &["", "", "\n[[track.send]]\nto = \"b\"\npre = ?\ngain = ^\n"];

const REGION: &str =
    "\n[[track.region]]\nid = $\nsource = \"a\"\nstart = #\nlength = *\nat = #\nlayer = @\n";

const SHAPES: &[&str] = &[
    "",
    "opaque = ?\n",
    "gain = ^\n",
    "fade_in = 1\nopaque = false\n",
];

const BUS: &str = "\n[[bus]]\nname = \"b\"\nchannels = 1\n";

// Each is drawn as often as it stands here.
const LINES: &[&str] = &[
    "roll",
    "roll",
    "roll",
    "stop",
    "record on",
    "record on",
    "record off",
    "locate #",
    "locate #",
    "loop # #",
    "loop 4 *",
    "loop off",
    "arm t@ on",
    "arm t@ %",
    "solo t@ %",
    "mute t@ %",
    "mute b %",
    "gain t@ ^",
    "gain master ^",
    "pan t@ ^ ^",
    "mode t@ play",
    "mode t@ manual",
    "point t@ # ^",
    "unpoint t@ #",
    "connect t@ b",
    "connect t@ master",
    "send t@ b pre ^",
    "unsend t@ b",
    "add t@ @ a # * # 0",
    "add t@ 9 a # * # 1",
    "remove t@ @",
    "move t@ 1 #",
    "move t@ 1 #",
    "trim t@ 1 # *",
    "layer t@ 1 @",
    "opaque t@ 1 %",
    "rgain t@ 1 ^",
    "rgain t@ 2 ^",
    "fade t@ 1 @ @",
    "wait *",
    "wait 1",
    "wait 1",
    "wait 2",
    "wait @",
    "sync",
    "sync",
    "# no line",
    "quit now",
];

// A region, with its shape.
fn region(alloc: Global, draw: &mut Draw, text: &mut Vec<u8>, place: u64) -> Result<(), NoMemory> {
    draw.fill(alloc, text, REGION, place)?;
    let shape = draw.one_of(SHAPES);
    draw.fill(alloc, text, shape, place)
}

// A track with its regions.
fn track(alloc: Global, draw: &mut Draw, text: &mut Vec<u8>, place: u64) -> Result<(), NoMemory> {
    draw.fill(alloc, text, TRACK, place)?;
    let route = draw.one_of(ROUTES);
    draw.fill(alloc, text, route, place)?;
    let send = draw.one_of(SENDS);
    draw.fill(alloc, text, send, place)?;
    for id in 0..draw.below(4) {
        region(alloc, draw, text, id + 1)?;
    }
    Ok(())
}

fn session(alloc: Global, draw: &mut Draw) -> Result<Vec<u8>, NoMemory> {
    let mut text = HEAD.as_bytes().to_vec(alloc)?;
    text.extend_from_slice(draw.one_of(HEADS).as_bytes())?;
    text.extend_from_slice(FILE.as_bytes())?;
    for place in 0..1 + draw.below(3) {
        track(alloc, draw, &mut text, place)?;
    }
    text.extend_from_slice(BUS.as_bytes())?;
    Ok(text)
}

fn lines(alloc: Global, draw: &mut Draw) -> Result<Vec<u8>, NoMemory> {
    let mut text = Vec::new(alloc);
    for _ in 0..draw.below(16) {
        let line = draw.one_of(LINES);
        draw.fill(alloc, &mut text, line, 0)?;
        text.extend_from_slice(b"\n")?;
    }
    if draw.one_in(4) {
        text.extend_from_slice(b"quit\n")?;
    }
    Ok(text)
}

fn samples(alloc: Global, draw: &mut Draw, most: u64) -> Result<Vec<u16>, NoMemory> {
    let mut samples = Vec::new(alloc);
    for _ in 0..draw.below(most) {
        let sample = draw.below(65_535) as u16;
        samples.push(sample)?;
    }
    Ok(samples)
}

// The number of a call that fails, from this one on, one time in so many.
fn call(draw: &mut Draw, chances: u64, first: u64, most: u64) -> Option<u64> {
    let number = draw.below(most).saturating_add(first);
    if draw.one_in(chances) {
        Some(number)
    } else {
        None
    }
}

// In one run of two nothing fails. What opens the world doesn't fail: that takes eight calls of the media and four reads of the input.
fn fails(draw: &mut Draw) -> Fails {
    if draw.one_in(2) {
        return NOTHING;
    }
    Fails {
        media: call(draw, 2, 9, 40),
        input: call(draw, 5, 5, 12),
        control: call(draw, 6, 1, 3),
        master: call(draw, 5, 1, 12),
        out: call(draw, 6, 1, 8),
    }
}

const PATIENCE: &[u64] = &[1, 2, 100, 100_000];

fn patience(draw: &mut Draw) -> u64 {
    let place = draw.below(PATIENCE.len() as u64) as usize;
    PATIENCE.get(place).copied().unwrap_or(1)
}

/// The run that is drawn of a number.
pub fn case_of(alloc: Global, number: u64) -> Result<Case, NoMemory> {
    let mut draw = Draw::new(number);
    let session = session(alloc, &mut draw)?;
    let source = samples(alloc, &mut draw, 60)?;
    let heard = samples(alloc, &mut draw, 60)?;
    let input = if heard.is_empty() {
        Vec::new(alloc)
    } else {
        run_rows::wav(alloc, heard.as_slice())?
    };
    Ok(Case {
        session,
        source: run_rows::wav(alloc, source.as_slice())?,
        input,
        heard,
        control: lines(alloc, &mut draw)?,
        cycles: 1 + draw.below(24) as u32,
        patience: patience(&mut draw),
        fails: fails(&mut draw),
    })
}
