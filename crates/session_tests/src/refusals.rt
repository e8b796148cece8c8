//! The words of each reason why an edit isn't accepted.
use crate::row::row_holds;
use arrayvec::ArrayString;
use edition_log::{Bound, Refusal};
use ses_units::Name;
use std::fmt::Write;

// Reasons that name no route and no source.
const NUMBERED: [(Refusal, &str); 14] = [
    (Refusal::Limit(Bound::Edits), "limit edits 10000"),
    (Refusal::Limit(Bound::Points), "limit points 1024"),
    (Refusal::Limit(Bound::Sends), "limit sends 8"),
    (Refusal::Limit(Bound::Regions), "limit regions 256"),
    (Refusal::NoRegion(7), "no-region 7"),
    (Refusal::RegionTwice(999_999), "region-twice 999999"),
    (Refusal::OnMaster, "master"),
    (Refusal::Gain(262_145), "gain 262145"),
    (Refusal::Far(1_099_511_627_776), "far 1099511627776"),
    (Refusal::LoopEmpty, "loop-empty"),
    (Refusal::NoLoop, "no-loop"),
    (Refusal::NoPoint(0), "no-point 0"),
    (Refusal::Fades(12), "fades 12"),
    (Refusal::Gain(u64::MAX), "gain 18446744073709551615"),
];

fn named(name: Name) -> [(Refusal, &'static str); 8] {
    [
        (Refusal::NoRoute(name), "no-route lead"),
        (Refusal::NotTrack(name), "not-track lead"),
        (Refusal::NotBus(name), "not-bus lead"),
        (Refusal::NoSource(name), "no-source lead"),
        (Refusal::NoInput(name), "no-input lead"),
        (Refusal::NoSend(name), "no-send lead"),
        (Refusal::Channels(name), "channels lead"),
        (Refusal::Cycle(name), "cycle lead"),
    ]
}

fn is_printed(why: &Refusal, want: &str) -> bool {
    let mut text = ArrayString::<40>::new();
    write!(text, "{why}").is_ok() && text.as_str() == want
}

#[test]
fn each_refusal_has_its_words(rt: HostRuntime) {
    let Ok(lead) = Name::new("lead") else {
        row_holds(&rt, 0, false);
        return;
    };
    for (at, (why, want)) in NUMBERED.iter().enumerate() {
        row_holds(&rt, at, is_printed(why, want));
    }
    for (at, (why, want)) in named(lead).iter().enumerate() {
        row_holds(&rt, at, is_printed(why, want));
    }
}
