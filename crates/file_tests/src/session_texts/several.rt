//! The rules between parts, and texts with several faults, of which the first one counts.
//! What is answered was worked out from the order of the rules by hand.

// One rule is broken, or just kept.
pub(crate) const RULES: (&str, usize) = (
    r#"twice t
24:[[track]]|name = "t"|channels = 1

twice t
24:[[bus]]|name = "t"|channels = 1

twice a
13:[[source]]|name = "a"|file = "b.wav"|channels = 1

ok
10:name = "t"
21:source = "t"

send-twice t
18:send = [{ to = "b" }, { to = "b" }]
24:[[bus]]|name = "b"|channels = 1|out = "master"|

ok
18:send = [{ to = "master" }]

send-twice b
24:[[bus]]|name = "b"|channels = 1|out = "master"|send = [{ to = "c" }, { to = "c" }]|[[bus]]|name = "c"|channels = 1|out = "master"|

region-1-twice t
24:[[track.region]]|id = 1|source = "a"|length = 1|at = 0|

ok
24:[[track]]|name = "u"|channels = 1|[[track.region]]|id = 1|source = "a"|length = 1|at = 0|

no-source b
21:source = "b"

no-route b
18:out = "b"

no-route c
18:send = [{ to = "c" }]

no-route c
24:[[bus]]|name = "b"|channels = 1|out = "c"|

not-bus t
18:out = "t"

not-bus t
24:[[bus]]|name = "b"|channels = 1|out = "master"|send = [{ to = "t" }]

channels t
12:channels = 2

channels t
12:channels = 2
16:channels = 2

ok
5:channels = 2
12:channels = 2
16:channels = 2

ok
5:channels = 2

channels b
5:channels = 2
24:[[bus]]|name = "b"|channels = 2|out = "c"|[[bus]]|name = "c"|channels = 1|out = "master"|

cycle b
24:[[bus]]|name = "b"|channels = 1|out = "b"|

cycle b
24:[[bus]]|name = "b"|channels = 1|out = "c"|[[bus]]|name = "c"|channels = 1|out = "b"|

cycle b
24:[[bus]]|name = "a"|channels = 1|out = "b"|[[bus]]|name = "b"|channels = 1|out = "c"|[[bus]]|name = "c"|channels = 1|out = "b"|

cycle b
24:[[bus]]|name = "b"|channels = 1|out = "c"|[[bus]]|name = "c"|channels = 1|out = "master"|send = [{ to = "b" }]"#,
    24,
);

// Several faults.
pub(crate) const SEVERAL: (&str, usize) = (
    r#"range Session 1 0 Version
2:version = 3
3:rate = true

unknown Session 1 0
2:version = 3
8:x = 1

unknown Session 1 0
2:
8:x = 1

unknown Top 1 0
1:x = 1|[session]
2:

kind Top 1 0 Master
1:master = 1|[session]
3:

range Session 1 0 Rate
3:rate = 1
10:

missing Region 1 1 Id
8:[[bus]]|x = 1
20:

missing Region 1 1 Id
18:send = [{}]
20:

kind Track 1 0 Send
18:send = 1
20:

missing Track 1 0 Channels
16:
20:

missing Region 1 1 Id
20:
24:[[track]]|x = 1

missing Bus 1 0 Channels
24:[master]|gain = -1|[[bus]]|name = "b"

kind Track 1 0 Out
18:gain = -1|out = 1

kind Track 1 0 Lane
18:lane = [[-1, 0], [0]]

unknown Region 1 1
20:id = 0
21:
24:y = 1

twice t
13:[[source]]|name = "a"|file = "b.wav"|channels = 1
24:[[bus]]|name = "t"|channels = 1

send-twice t
18:send = [{ to = "b" }, { to = "b" }]
24:[[track.region]]|id = 1|source = "a"|length = 1|at = 0|

region-1-twice t
21:source = "b"
24:[[track.region]]|id = 1|source = "a"|length = 1|at = 0|

no-source b
18:out = "b"
21:source = "b"

no-route c
18:out = "t"
24:[[bus]]|name = "b"|channels = 1|out = "c"|

not-bus t
12:channels = 2
18:out = "t"

channels u
12:channels = 2
16:channels = 2
24:[[track]]|name = "u"|channels = 1|[[track.region]]|id = 1|source = "a"|length = 1|at = 0|

channels t
12:channels = 2
24:[[bus]]|name = "b"|channels = 1|out = "b"|

cycle c
24:[[bus]]|name = "c"|channels = 1|out = "b"|[[bus]]|name = "b"|channels = 1|out = "c"|"#,
    24,
);
