//! What rows of texts are made of.
use ses_units::{Gain, Lane, Name};
use session_model::{FileName, SourceDecl, SourceList};
use std::alloc::Global;

fn push(alloc: Global, list: &mut SourceList, file: &str, channels: u16) -> bool {
    match (Name::new("a"), FileName::new(alloc, file)) {
        (Ok(name), Ok(file)) if !list.is_full() => {
            list.push(SourceDecl {
                name,
                file,
                channels,
            });
            true
        }
        _ => false,
    }
}

/// Sources of these files, each with its channels.
pub(crate) fn list(alloc: Global, files: &[(&str, u16)]) -> Option<SourceList> {
    let mut list = SourceList::new(alloc, 3).ok()?;
    for (file, channels) in files {
        if !push(alloc, &mut list, file, *channels) {
            return None;
        }
    }
    Some(list)
}

/// The gain of so many 65,536ths.
pub(crate) fn gain(n: u32) -> Gain {
    Gain::new(n).unwrap_or(Gain::UNITY)
}

/// Whether a lane has these points, each a place and a gain.
pub(crate) fn has_points(lane: &Lane, points: &[(u64, u32)]) -> bool {
    let held = lane.points();
    for (point, (at, gain)) in held.iter().zip(points) {
        if point.at != *at || point.gain.value() != *gain {
            return false;
        }
    }
    held.len() == points.len()
}
