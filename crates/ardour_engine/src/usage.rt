//! What standard error shows where the words are no command: the wrong word, and what may stand.
use command_words::command;
use ses_io::NoMemory;
use std::alloc::Global;
use std::io::Eprint;
use std::mem;

const ALL: &str = "usage: ardour_engine check SESSION
usage: ardour_engine render SESSION FROM FRAMES
usage: ardour_engine export SESSION FROM CYCLES
usage: ardour_engine play SESSION CYCLES --serial|--steps LETTERS|--seed NUMBER
usage: ardour_engine migrate SESSION
usage: ardour_engine verify SESSION REPORT MASTER
usage: ardour_engine gen NUMBER";

// Words of which one is right wherever a word may stand.
const RIGHT: [&str; 3] = ["1", "a", "--serial"];

// Whether the words are a command once the word at a place is another.
fn is_mended(words: &mut [&str], place: usize) -> bool {
    for right in RIGHT {
        let Some(word) = words.get_mut(place) else {
            return false;
        };
        let wrong = mem::replace(word, right);
        let mended = command(words).is_some();
        if let Some(word) = words.get_mut(place) {
            *word = wrong;
        }
        if mended {
            return true;
        }
    }
    false
}

// The one word that keeps the words from being a command, if it is one.
fn wrong_word<'a>(alloc: Global, words: &[&'a str]) -> Result<Option<&'a str>, NoMemory> {
    let mut tried = words.to_vec(alloc)?;
    for (place, word) in words.iter().enumerate() {
        if is_mended(tried.as_mut_slice(), place) {
            return Ok(Some(*word));
        }
    }
    Ok(None)
}

// How the command of that first word is written, if it is one.
fn usage_of(verb: &str) -> Option<&'static str> {
    match verb {
        "check" => Some("usage: ardour_engine check SESSION"),
        "render" => Some("usage: ardour_engine render SESSION FROM FRAMES"),
        "export" => Some("usage: ardour_engine export SESSION FROM CYCLES"),
        "play" => Some(
            "usage: ardour_engine play SESSION CYCLES --serial|--steps LETTERS|--seed NUMBER",
        ),
        "migrate" => Some("usage: ardour_engine migrate SESSION"),
        "verify" => Some("usage: ardour_engine verify SESSION REPORT MASTER"),
        "gen" => Some("usage: ardour_engine gen NUMBER"),
        _ => None,
    }
}

// How commands are written: that of the first word, or all where it is no command.
fn tell_usage<R: Eprint>(rt: &R, words: &[&str]) {
    let Some(verb) = words.first() else {
        let _ = eprintln!(rt; "{ALL}");
        return;
    };
    if let Some(usage) = usage_of(verb) {
        let _ = eprintln!(rt; "{usage}");
    } else {
        let _ = eprintln!(rt; "{verb:?} is no command");
        let _ = eprintln!(rt; "{ALL}");
    }
}

// Tells of one word, or that the words ask for what isn't there yet.
fn tell_word<R: Eprint>(rt: &R, alloc: Global, words: &[&str]) {
    if command(words).is_some() {
        let _ = eprintln!(rt; "a play on threads isn't there yet");
    } else if let Ok(Some(word)) = wrong_word(alloc, words) {
        let _ = eprintln!(rt; "the word {word:?} is no word that may stand there");
    }
}

/// Tells why the words aren't carried out, as far as memory is there for it.
pub(crate) fn tell<R: Eprint>(rt: &R, alloc: Global, words: &[&str]) {
    tell_word(rt, alloc, words);
    tell_usage(rt, words);
}
