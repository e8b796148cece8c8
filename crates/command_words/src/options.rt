//! Words of the command line, each as it stands: the marker, an option, or a positional word.
ghost use Rattle.std.specs.Prelude.{◌≡◌, ◌==◌, codes, bytes_eq, position};
ghost use Rattle.std.specs.Option.{option_map};
ghost use Rattle.command_words.specs.Options as spec;
ghost use Rattle.command_words.specs.Spoken.{kind_view, word_view};

/// The options that take a value.
#[derive(Clone, Copy)]
pub(crate) enum Kind {
    Seed,
    Steps,
    Patience,
}

/// An option, with the value that it takes.
#[derive(Clone, Copy)]
pub(crate) enum Setting<'a> {
    Serial,
    With(Kind, &'a str),
}

/// What a word is that is no value.
#[derive(Clone, Copy)]
pub(crate) enum Word<'a> {
    /// `--`: all later words are positional.
    Marker,
    Positional,
    /// An option, whole in this word.
    Whole(Setting<'a>),
    /// An option whose value is the next word.
    Awaits(Kind),
    /// An option that there isn't.
    Unknown,
}

fn is_option(word: &str) -> bool
    ensures { result ≡ spec.is_option word.now }
{
    match word.as_bytes() {
        [first, _, ..] => *first == b'-',
        _ => false,
    }
}

/// Whether the word is no value where it stands behind its option.
pub(crate) fn begins_with_dash(word: &str) -> bool
    ensures { result ≡ spec.begins_with_dash word.now }
{
    match word.as_bytes() {
        [first, ..] => *first == b'-',
        _ => false,
    }
}

fn kind_of(name: &str) -> Option<Kind>
    ensures { option_map kind_view result ≡ spec.kind_of name.now }
{
    if name == "--seed" {
        Some(Kind::Seed)
    } else if name == "--steps" {
        Some(Kind::Steps)
    } else if name == "--patience" {
        Some(Kind::Patience)
    } else {
        None
    }
}

// An option with the value behind its `=`.
fn with_value<'a>(kind: Option<Kind>, value: &'a str) -> Word<'a>
    ensures { word_view result ≡ spec.with_value (option_map kind_view kind) value.now }
{
    match kind {
        Some(kind) => Word::Whole(Setting::With(kind, value)),
        None => Word::Unknown,
    }
}

// An option without `=`.
fn without_value<'a>(kind: Option<Kind>) -> Word<'a>
    ensures { word_view result ≡ spec.without_value (option_map kind_view kind) }
{
    match kind {
        Some(kind) => Word::Awaits(kind),
        None => Word::Unknown,
    }
}

fn option_word<'a>(word: &'a str) -> Word<'a>
    ensures { word_view result ≡ spec.option_word word.now (position (λ b. b == 61) word.now) }
{
    match word.split_once('=') {
        Some((name, value)) => with_value(kind_of(name), value),
        None if word == "--serial" => Word::Whole(Setting::Serial),
        None => without_value(kind_of(word)),
    }
}

/// What the word is, where it is no value.
pub(crate) fn word_of<'a>(word: &'a str) -> Word<'a>
    ensures { word_view result ≡ spec.word_of word.now }
{
    if word == "--" {
        Word::Marker
    } else if is_option(word) {
        option_word(word)
    } else {
        Word::Positional
    }
}
