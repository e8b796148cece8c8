//! The words of a session's text.
ghost use Rattle.std.specs.Prelude.{◌≡◌};
ghost use Rattle.session_walk.specs.Words.{word};

use session_model::Key;

/// The word that a key is written as.
#[tactic(auto, unfolding(crate::specs::Words::word))]
pub fn word(key: Key) -> &'static str
    ensures { result.now ≡ word key }
{
    match key {
        Key::Session => "session",
        Key::Version => "version",
        Key::Rate => "rate",
        Key::Bits => "bits",
        Key::Channels => "channels",
        Key::Block => "block",
        Key::Depth => "depth",
        Key::Takes => "takes",
        Key::Source => "source",
        Key::Name => "name",
        Key::File => "file",
        Key::Track => "track",
        Key::Input => "input",
        Key::Solo => "solo",
        Key::Arm => "arm",
        Key::Out => "out",
        Key::Gain => "gain",
        Key::Mute => "mute",
        Key::Left => "left",
        Key::Right => "right",
        Key::Mode => "mode",
        Key::Lane => "lane",
        Key::Send => "send",
        Key::To => "to",
        Key::Pre => "pre",
        Key::Region => "region",
        Key::Id => "id",
        Key::Start => "start",
        Key::Length => "length",
        Key::At => "at",
        Key::Layer => "layer",
        Key::Opaque => "opaque",
        Key::FadeIn => "fade_in",
        Key::FadeOut => "fade_out",
        Key::ShapeIn => "shape_in",
        Key::ShapeOut => "shape_out",
        Key::Bus => "bus",
        Key::Master => "master",
    }
}
