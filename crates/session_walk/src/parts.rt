//! The session's own part, its sources, its sends and its regions, key by key.
ghost use Rattle.std.specs.Prelude.{◌≡◌, ◌≤◌, ◌+◌, ◌-◌, IfOk};
ghost use Rattle.session_walk.specs.Fault.{Gives};
ghost use Rattle.session_walk.specs.Parts as spec;
ghost use Rattle.session_walk.specs.Section.{section_of};

use crate::arrays::Entry;
use crate::choices::{bits, shape_or, version};
use crate::fault::SessionFault;
use crate::said::{Fades, Head, RegionText, SendText, Span, Version};
use crate::section::{Section, holds, only};
use crate::values::{file, flag_or, gain_or, name, name_or, whole, whole_or};
use ses_units::limits;
use session_model::{Key, SessionRefusal, SourceDecl};
use std::alloc::Global;

const HEAD_KEYS: [Key; 7] = [
    Key::Version,
    Key::Rate,
    Key::Bits,
    Key::Channels,
    Key::Block,
    Key::Depth,
    Key::Takes,
];

/// The table `session`.
#[tactic(auto, unfolding(crate::specs::Parts::head_of))]
pub(crate) fn head_of(part: Section<'_>) -> Result<Head, SessionRefusal>
    ensures { result ≡ spec.head_of (section_of part.entry) }
{
    only(part, &HEAD_KEYS)?;
    let version = version(part, Key::Version)?;
    let rate = whole(part, Key::Rate, 8_000, 192_000)?;
    let bits = bits(part, Key::Bits)?;
    let channels = whole(part, Key::Channels, 1, 2)?;
    let block = whole(part, Key::Block, 1, limits::BLOCK)?;
    let depth = whole(part, Key::Depth, 2, limits::DEPTH)?;
    holds(
        depth * block <= limits::AHEAD,
        SessionRefusal::Range(part.place, Key::Depth),
    )?;
    let takes = name_or(part, Key::Takes, "take")?;
    Ok(Head {
        version,
        rate: rate as u32,
        bits,
        channels: channels as u16,
        block: block as u32,
        depth: depth as u32,
        takes,
    })
}

impl Entry for SourceDecl {
    ghost use Rattle.session_walk.specs.Parts as spec;
    ghost use Rattle.session_walk.specs.Section.{section_of};
    ghost use Rattle.session_walk.specs.Fault.{Gives};

    ghost says = { λ version. spec.source_of };

    #[tactic(auto, unfolding(crate::specs::Parts::source_of))]
    fn read(
        alloc: Global,
        _version: Version,
        part: Section<'_>,
    ) -> Result<SourceDecl, SessionFault> {
        only(part, &[Key::Name, Key::File, Key::Channels])?;
        let name = name(part, Key::Name)?;
        let file = file(alloc, part, Key::File)?;
        let channels = whole(part, Key::Channels, 1, 2)?;
        Ok(SourceDecl {
            name,
            file,
            channels: channels as u16,
        })
    }
}

impl Entry for SendText {
    ghost use Rattle.session_walk.specs.Parts as spec;
    ghost use Rattle.session_walk.specs.Section.{section_of};
    ghost use Rattle.session_walk.specs.Fault.{Gives};

    ghost says = { λ version. spec.send_of };

    #[tactic(auto, unfolding(crate::specs::Parts::send_of))]
    fn read(
        _alloc: Global,
        _version: Version,
        part: Section<'_>,
    ) -> Result<SendText, SessionFault> {
        only(part, &[Key::To, Key::Pre, Key::Gain])?;
        let to = name(part, Key::To)?;
        let pre = flag_or(part, Key::Pre, false)?;
        let gain = gain_or(part, Key::Gain)?;
        Ok(SendText { to, pre, gain })
    }
}

#[tactic(auto, unfolding(crate::specs::Parts::span_of))]
fn span_of(part: Section<'_>) -> Result<Span, SessionRefusal>
    ensures span { result ≡ spec.span_of (section_of part.entry) }
    ensures within { IfOk result (λ s. s.length ≤ 1099511627776) }
{
    let start = whole_or(part, Key::Start, 0, 0, limits::END - 1)?;
    let length = whole(part, Key::Length, 1, limits::END)?;
    let within = start + length <= limits::END;
    holds(within, SessionRefusal::Range(part.place, Key::Length))?;
    let at = whole(part, Key::At, 0, limits::END)?;
    let near = at + length <= limits::END;
    holds(near, SessionRefusal::Range(part.place, Key::At))?;
    Ok(Span { start, length, at })
}

#[tactic(auto, unfolding(crate::specs::Parts::fades_of))]
fn fades_of(part: Section<'_>, length: u64) -> Result<Fades, SessionRefusal>
    ensures { result ≡ spec.fades_of (section_of part.entry) length }
{
    let fade_in = whole_or(part, Key::FadeIn, 0, 0, length)?;
    let fade_out = whole_or(part, Key::FadeOut, 0, 0, length - fade_in)?;
    let shape_in = shape_or(part, Key::ShapeIn)?;
    let shape_out = shape_or(part, Key::ShapeOut)?;
    Ok(Fades {
        fade_in,
        fade_out,
        shape_in,
        shape_out,
    })
}

// The last two are known in version 2 alone.
const REGION_KEYS: [Key; 12] = [
    Key::Id,
    Key::Source,
    Key::Start,
    Key::Length,
    Key::At,
    Key::Layer,
    Key::Gain,
    Key::Opaque,
    Key::FadeIn,
    Key::FadeOut,
    Key::ShapeIn,
    Key::ShapeOut,
];

// The keys that a region may have.
fn region_keys(version: Version) -> &'static [Key]
    ensures { result.now ≡ spec.region_keys version }
{
    match version {
        Version::One => &REGION_KEYS[..10],
        Version::Two => &REGION_KEYS,
    }
}

#[tactic(auto, unfolding(crate::specs::Parts::region_of))]
fn region_of(version: Version, part: Section<'_>) -> Result<RegionText, SessionRefusal>
    ensures { result ≡ spec.region_of version (section_of part.entry) }
{
    only(part, region_keys(version))?;
    let id = whole(part, Key::Id, 1, 999_999)?;
    let source = name(part, Key::Source)?;
    let span = span_of(part)?;
    let layer = whole_or(part, Key::Layer, 0, 0, 65_535)?;
    let gain = gain_or(part, Key::Gain)?;
    let opaque = flag_or(part, Key::Opaque, true)?;
    let fades = fades_of(part, span.length)?;
    Ok(RegionText {
        id: id as u32,
        source,
        span,
        layer: layer as u32,
        gain,
        opaque,
        fades,
    })
}

impl Entry for RegionText {
    ghost use Rattle.session_walk.specs.Parts as spec;
    ghost use Rattle.session_walk.specs.Section.{section_of};
    ghost use Rattle.session_walk.specs.Fault.{Gives};

    ghost says = { spec.region_of };

    fn read(
        _alloc: Global,
        version: Version,
        part: Section<'_>,
    ) -> Result<RegionText, SessionFault> {
        let region = region_of(version, part)?;
        Ok(region)
    }
}
