//! Keys of the document, of the session's own part, and of sources.

/// The rows, and how many there are.
pub(crate) const SESSION: (&str, usize) = (
    r#"unknown Top 1 0
1:x = 1|[session]

missing Top 1 0 Session
1:
2:
3:
4:
5:
6:
7:

kind Top 1 0 Session
1:session = 1
2:
3:
4:
5:
6:
7:

kind Top 1 0 Source
1:source = 1|[session]
9:
10:
11:
12:

kind Top 1 0 Source
1:source = [1]|[session]
9:
10:
11:
12:

kind Top 1 0 Track
1:track = true|[session]
14:
15:
16:
17:
18:
19:
20:
21:
22:
23:

kind Top 1 0 Bus
1:bus = {}|[session]

kind Top 1 0 Master
1:master = []|[session]

not-toml
1:[session

not-toml
6:block = 4|block = 4

not-toml
3:rate = 9223372036854775808

unknown Session 1 0
8:x = 1

missing Session 1 0 Version
2:

kind Session 1 0 Version
2:version = "1"

range Session 1 0 Version
2:version = 0

range Session 1 0 Version
2:version = 3

ok
2:version = 2

missing Session 1 0 Rate
3:

kind Session 1 0 Rate
3:rate = 48000.0

range Session 1 0 Rate
3:rate = 7999

range Session 1 0 Rate
3:rate = 192001

range Session 1 0 Rate
3:rate = -1

missing Session 1 0 Bits
4:

kind Session 1 0 Bits
4:bits = "16"

range Session 1 0 Bits
4:bits = 8

range Session 1 0 Bits
4:bits = -16

missing Session 1 0 Channels
5:

kind Session 1 0 Channels
5:channels = true

range Session 1 0 Channels
5:channels = 0

range Session 1 0 Channels
5:channels = 3

missing Session 1 0 Block
6:

kind Session 1 0 Block
6:block = [4]

range Session 1 0 Block
6:block = 0

range Session 1 0 Block
6:block = 4097

missing Session 1 0 Depth
7:

kind Session 1 0 Depth
7:depth = "2"

range Session 1 0 Depth
7:depth = 1

range Session 1 0 Depth
7:depth = 257

range Session 1 0 Depth
6:block = 4096
7:depth = 17

ok
6:block = 4096
7:depth = 16

ok
3:rate = 8000
4:bits = 24
5:channels = 2

ok
3:rate = 192000
7:depth = 256

kind Session 1 0 Takes
8:takes = 1

range Session 1 0 Takes
8:takes = "9a"

range Session 1 0 Takes
8:takes = ""

unknown Source 1 0
13:x = 1

missing Source 1 0 Name
10:

kind Source 1 0 Name
10:name = 1

range Source 1 0 Name
10:name = "A"

range Source 1 0 Name
10:name = "_a"

range Source 1 0 Name
10:name = "a234567890123456789012345"

missing Source 1 0 File
11:

kind Source 1 0 File
11:file = 1

range Source 1 0 File
11:file = ""

range Source 1 0 File
11:file = "."

range Source 1 0 File
11:file = ".."

range Source 1 0 File
11:file = "b/a.wav"

range Source 1 0 File
11:file = "a\u0000"

missing Source 1 0 Channels
12:

kind Source 1 0 Channels
12:channels = 1.0

range Source 1 0 Channels
12:channels = 0

range Source 1 0 Channels
12:channels = 3"#,
    62,
);
