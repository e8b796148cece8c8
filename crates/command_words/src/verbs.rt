//! The first word of a command, which names it.
ghost use Rattle.std.specs.Prelude.{◌≡◌};
ghost use Rattle.std.specs.Option.{option_map};
ghost use Rattle.command_words.specs.Verbs as spec;
ghost use Rattle.command_words.specs.Spoken.{verb_view};

/// Which command it is.
#[derive(Clone, Copy)]
pub(crate) enum Verb {
    Check,
    Render,
    Export,
    Migrate,
    Play,
    Verify,
    Gen,
}

/// The command of that name.
pub(crate) fn verb_of(name: &str) -> Option<Verb>
    ensures { option_map verb_view result ≡ spec.verb_of name.now }
{
    if name == "check" {
        Some(Verb::Check)
    } else if name == "render" {
        Some(Verb::Render)
    } else if name == "export" {
        Some(Verb::Export)
    } else if name == "migrate" {
        Some(Verb::Migrate)
    } else if name == "play" {
        Some(Verb::Play)
    } else if name == "verify" {
        Some(Verb::Verify)
    } else if name == "gen" {
        Some(Verb::Gen)
    } else {
        None
    }
}
