//! The tracks, busses and the master of a session's text, key by key.
ghost use Rattle.std.specs.Prelude.{◌≡◌, ◌≤◌, ◌-◌, not, bytes_eq, IfOk};
ghost use Rattle.toml.specs.View.{view};
ghost use Rattle.session_walk.specs.Fault.{Gives};
ghost use Rattle.session_walk.specs.Parts as spec;
ghost use Rattle.session_walk.specs.Section.{section_of};

use crate::arrays::{Entry, entries, tables};
use crate::choices::mode_or;
use crate::fault::SessionFault;
use crate::lane::lane;
use crate::said::{
    Automation, ChannelStrip, InputSettings, Level, MasterText, Named, RouteText, TrackOwn,
    TrackText, Version,
};
use crate::section::{Section, holds, item_of, only, value_at};
use crate::values::{flag_or, gain_or, name, name_or, whole, whole_of};
use ses_units::Name;
use ses_units::limits::{REGIONS, SENDS};
use session_model::{Key, Part, SessionRefusal};
use std::alloc::Global;
use toml::Value;

// ---- what routes have alike

#[tactic(auto, unfolding(crate::specs::Parts::level_of))]
fn level_of(part: Section<'_>) -> Result<Level, SessionRefusal>
    ensures { result ≡ spec.level_of (section_of part.entry) }
{
    let gain = gain_or(part, Key::Gain)?;
    let muted = flag_or(part, Key::Mute, false)?;
    Ok(Level { gain, muted })
}

#[tactic(auto, unfolding(crate::specs::Parts::automation_of))]
fn automation_of(alloc: Global, part: Section<'_>) -> Result<Automation, SessionFault>
    ensures { Gives (spec.automation_of (section_of part.entry)) result }
{
    let mode = mode_or(part, Key::Mode)?;
    let lane = lane(alloc, part)?;
    Ok(Automation { mode, lane })
}

#[tactic(auto, unfolding(crate::specs::Parts::strip_of))]
fn strip_of(alloc: Global, part: Section<'_>) -> Result<ChannelStrip, SessionFault>
    ensures { Gives (spec.strip_of (section_of part.entry)) result }
{
    let out = name_or(part, Key::Out, "master")?;
    let level = level_of(part)?;
    let left = gain_or(part, Key::Left)?;
    let right = gain_or(part, Key::Right)?;
    let automation = automation_of(alloc, part)?;
    Ok(ChannelStrip {
        out,
        level,
        left,
        right,
        automation,
    })
}

fn is_other(name: &Name, text: &str) -> bool
    ensures { result ≡ not (bytes_eq name.now text.now) }
{
    name.as_str() != text
}

#[tactic(auto, unfolding(crate::specs::Parts::named_of))]
fn named_of(part: Section<'_>) -> Result<Named, SessionRefusal>
    ensures named { result ≡ spec.named_of (section_of part.entry) }
    ensures few { IfOk result (λ n. n.channels ≤ 2) }
{
    let name = name(part, Key::Name)?;
    let other = is_other(&name, "master");
    holds(other, SessionRefusal::Range(part.place, Key::Name))?;
    let channels = whole(part, Key::Channels, 1, 2)?;
    Ok(Named {
        name,
        channels: channels as u16,
    })
}

// ---- busses

const BUS_KEYS: [Key; 10] = [
    Key::Name,
    Key::Channels,
    Key::Out,
    Key::Gain,
    Key::Mute,
    Key::Left,
    Key::Right,
    Key::Mode,
    Key::Lane,
    Key::Send,
];

impl Entry for RouteText {
    ghost use Rattle.session_walk.specs.Parts as spec;
    ghost use Rattle.session_walk.specs.Section.{section_of};
    ghost use Rattle.session_walk.specs.Fault.{Gives};

    ghost says = { λ version. spec.bus_of };

    #[tactic(auto, unfolding(crate::specs::Parts::bus_of))]
    fn read(alloc: Global, version: Version, part: Section<'_>) -> Result<RouteText, SessionFault> {
        only(part, &BUS_KEYS)?;
        let named = named_of(part)?;
        let strip = strip_of(alloc, part)?;
        let rows = tables(alloc, part, Key::Send, SENDS as usize)?;
        let base = item_of(Part::BusSend, part.place.row);
        let sends = entries(alloc, version, base, SENDS, &rows)?;
        Ok(RouteText {
            named,
            strip,
            sends,
        })
    }
}

// ---- tracks

fn input_of(part: Section<'_>, channels: u16, value: &Value) -> Result<Option<u16>, SessionRefusal>
    requires { channels ≤ 2 }
    ensures { result ≡ spec.input_of (section_of part.entry) channels (view value.now) }
{
    let first = whole_of(part, Key::Input, 0, 8 - u64::from(channels), value)?;
    Ok(Some(first as u16))
}

fn input(part: Section<'_>, channels: u16) -> Result<Option<u16>, SessionRefusal>
    requires { channels ≤ 2 }
    ensures { result ≡ spec.input (section_of part.entry) channels }
{
    match value_at(part, Key::Input) {
        None => Ok(None),
        Some(value) => input_of(part, channels, value),
    }
}

#[tactic(auto, unfolding(crate::specs::Parts::settings_of))]
fn settings_of(part: Section<'_>, channels: u16) -> Result<InputSettings, SessionRefusal>
    requires { channels ≤ 2 }
    ensures { result ≡ spec.settings_of (section_of part.entry) channels }
{
    let input = input(part, channels)?;
    let solo = flag_or(part, Key::Solo, false)?;
    let armed = flag_or(part, Key::Arm, false)?;
    let able = !armed || input.is_some();
    holds(able, SessionRefusal::Range(part.place, Key::Arm))?;
    Ok(InputSettings { input, solo, armed })
}

const TRACK_KEYS: [Key; 14] = [
    Key::Name,
    Key::Channels,
    Key::Input,
    Key::Solo,
    Key::Arm,
    Key::Out,
    Key::Gain,
    Key::Mute,
    Key::Left,
    Key::Right,
    Key::Mode,
    Key::Lane,
    Key::Send,
    Key::Region,
];

impl Entry for TrackText {
    ghost use Rattle.session_walk.specs.Parts as spec;
    ghost use Rattle.session_walk.specs.Section.{section_of};
    ghost use Rattle.session_walk.specs.Fault.{Gives};

    ghost says = { spec.track_of };

    #[tactic(auto, unfolding(crate::specs::Parts::track_of))]
    fn read(alloc: Global, version: Version, part: Section<'_>) -> Result<TrackText, SessionFault> {
        only(part, &TRACK_KEYS)?;
        let named = named_of(part)?;
        let settings = settings_of(part, named.channels)?;
        let strip = strip_of(alloc, part)?;
        let send_rows = tables(alloc, part, Key::Send, SENDS as usize)?;
        let region_rows = tables(alloc, part, Key::Region, REGIONS as usize)?;
        let row = part.place.row;
        let regions = entries(
            alloc,
            version,
            item_of(Part::Region, row),
            REGIONS,
            &region_rows,
        )?;
        let sends = entries(
            alloc,
            version,
            item_of(Part::TrackSend, row),
            SENDS,
            &send_rows,
        )?;
        let own = TrackOwn {
            named: Named { ..named },
            settings,
            regions,
        };
        let route = RouteText {
            named,
            strip,
            sends,
        };
        Ok(TrackText { route, own })
    }
}

// ---- the master

/// The table `master`.
#[tactic(auto, unfolding(crate::specs::Parts::master_of))]
pub(crate) fn master_of(alloc: Global, part: Section<'_>) -> Result<MasterText, SessionFault>
    ensures { Gives (spec.master_of (section_of part.entry)) result }
{
    only(part, &[Key::Gain, Key::Mute, Key::Mode, Key::Lane])?;
    let level = level_of(part)?;
    let automation = automation_of(alloc, part)?;
    Ok(MasterText { level, automation })
}
