//! A session, and rows of edits with their answers, worked out by the rules of each command.

/// A mono track of one region with an input, one without either, a stereo bus, and busses of which the second leads into the first.
pub(crate) const DESK: &str = r#"
[session]
version = 1
rate = 48000
bits = 16
channels = 2
block = 4
depth = 2

[[source]]
name = "a"
file = "a.wav"
channels = 1

[[source]]
name = "w"
file = "w.wav"
channels = 2

[[track]]
name = "t"
channels = 1
input = 0

[[track.region]]
id = 1
source = "a"
length = 8
at = 0

[[track]]
name = "u"
channels = 2

[[bus]]
name = "b1"
channels = 1

[[bus]]
name = "b2"
channels = 1
out = "b1"

[[bus]]
name = "wide"
channels = 2
"#;

/// Lines, each with its answer; each row begins with edition 0.
pub(crate) const ROWS: &[&[(&str, &str)]] = &[
    // a link that would close a cycle
    &[
        ("connect b1 b2", "refused cycle b1"),
        ("connect b2 b2", "refused cycle b2"),
        ("send b1 b2 pre 0", "refused cycle b1"),
        ("connect b2 master", "ok 1"),
        ("send b1 b2 post 65536", "ok 2"),
        ("connect b2 b1", "refused cycle b2"),
        ("unsend b1 b2", "ok 3"),
        ("connect b2 b1", "ok 4"),
        ("connect b2 b1", "ok 5"),
    ],
    // a region that ends too far
    &[
        ("add t 9 a 0 2 1099511627775 0", "refused far 1099511627775"),
        ("add t 9 a 0 1 1099511627775 0", "ok 1"),
        (
            "add t 8 a 1099511627775 2 1099511627775 0",
            "refused far 1099511627775",
        ),
        (
            "add t 8 a 18446744073709551615 18446744073709551615 0 0",
            "refused far 18446744073709551615",
        ),
    ],
    // a region is made quieter while it is played
    &[
        ("roll", "ok 1"),
        ("rgain t 1 32768", "ok 2"),
        ("rgain t 1 262145", "refused gain 262145"),
        ("rgain u 1 262145", "refused no-region 1"),
        ("rgain b1 1 0", "refused not-track b1"),
        ("rgain nobody 1 0", "refused no-route nobody"),
    ],
    // switches
    &[
        ("arm t on", "ok 1"),
        ("arm u on", "refused no-input u"),
        ("arm u off", "ok 2"),
        ("arm b1 on", "refused not-track b1"),
        ("solo master on", "refused not-track master"),
        ("solo u on", "ok 3"),
        ("mute master on", "ok 4"),
        ("mute a on", "refused no-route a"),
        ("mode master play", "ok 5"),
    ],
    // faders and lanes
    &[
        ("gain master 262145", "refused gain 262145"),
        ("gain nobody 262145", "refused no-route nobody"),
        ("gain master 262144", "ok 1"),
        ("pan master 0 0", "refused master"),
        ("pan t 262145 262146", "refused gain 262145"),
        ("pan t 0 262146", "refused gain 262146"),
        ("pan t 0 262144", "ok 2"),
        ("point t 1099511627776 262145", "refused far 1099511627776"),
        ("point t 5 262145", "refused gain 262145"),
        ("unpoint t 5", "refused no-point 5"),
        ("point t 5 1", "ok 3"),
        ("point t 5 2", "ok 4"),
        ("unpoint t 5", "ok 5"),
        ("unpoint t 5", "refused no-point 5"),
    ],
    // links
    &[
        ("connect master nobody", "refused master"),
        ("connect t nobody", "refused no-route nobody"),
        ("connect t t", "refused not-bus t"),
        ("connect wide b1", "refused channels wide"),
        ("connect u b1", "refused channels u"),
        ("send u b1 pre 262145", "refused gain 262145"),
        ("send u b1 pre 0", "refused channels u"),
        ("send t wide post 0", "ok 1"),
        ("unsend t b1", "refused no-send b1"),
        ("unsend t t", "refused no-send t"),
        ("unsend t wide", "ok 2"),
        ("unsend t wide", "refused no-send wide"),
    ],
    // regions
    &[
        ("add t 1 a 0 1 0 0", "refused region-twice 1"),
        ("add t 1 nobody 0 1 0 0", "refused region-twice 1"),
        ("add t 2 nobody 0 1 0 0", "refused no-source nobody"),
        ("add t 2 w 0 1 0 0", "refused channels t"),
        ("add b1 2 a 0 1 0 0", "refused not-track b1"),
        ("remove t 2", "refused no-region 2"),
        ("move t 1 1099511627769", "refused far 1099511627769"),
        ("move t 1 1099511627768", "ok 1"),
        ("trim t 1 1099511627776 1", "refused far 1099511627776"),
        ("trim t 1 0 9", "refused far 1099511627768"),
        ("fade t 1 5 4", "refused fades 1"),
        ("fade t 1 18446744073709551615 1", "refused fades 1"),
        ("fade t 1 4 4", "ok 2"),
        ("trim t 1 0 7", "refused fades 1"),
        ("shape t 1 slow linear", "ok 3"),
        ("layer t 1 65535", "ok 4"),
        ("opaque t 1 off", "ok 5"),
        ("remove t 1", "ok 6"),
        ("remove t 1", "refused no-region 1"),
    ],
    // the transport
    &[
        ("locate 1099511627776", "refused far 1099511627776"),
        ("loop 1099511627776 0", "refused far 1099511627776"),
        ("loop 0 1099511627776", "refused far 1099511627776"),
        ("loop 5 5", "refused loop-empty"),
        ("loop off", "refused no-loop"),
        ("loop 2 5", "ok 1"),
        ("loop off", "ok 2"),
        ("loop off", "refused no-loop"),
        ("record on", "ok 3"),
        ("stop", "ok 4"),
        ("quit", "ok 5"),
    ],
];
