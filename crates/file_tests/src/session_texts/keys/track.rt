//! Keys of tracks and of their sends.

/// The rows, and how many there are.
pub(crate) const TRACK: (&str, usize) = (
    r#"unknown Track 1 0
18:x = 1

missing Track 1 0 Name
15:

kind Track 1 0 Name
15:name = 1

range Track 1 0 Name
15:name = "master"

range Track 1 0 Name
15:name = "1t"

missing Track 1 0 Channels
16:

kind Track 1 0 Channels
16:channels = "1"

range Track 1 0 Channels
16:channels = 0

range Track 1 0 Channels
16:channels = 3

kind Track 1 0 Input
17:input = true

range Track 1 0 Input
17:input = -1

range Track 1 0 Input
17:input = 8

ok
17:input = 7

range Track 1 0 Input
5:channels = 2
12:channels = 2
16:channels = 2
17:input = 7

kind Track 1 0 Solo
18:solo = 1

kind Track 1 0 Arm
18:arm = 1

range Track 1 0 Arm
17:arm = true

ok
18:arm = true

kind Track 1 0 Out
18:out = 1

range Track 1 0 Out
18:out = "Out"

kind Track 1 0 Gain
18:gain = 1.0

range Track 1 0 Gain
18:gain = -1

range Track 1 0 Gain
18:gain = 262145

kind Track 1 0 Mute
18:mute = 0

kind Track 1 0 Left
18:left = true

range Track 1 0 Left
18:left = 262145

kind Track 1 0 Right
18:right = true

range Track 1 0 Right
18:right = -1

kind Track 1 0 Mode
18:mode = 1

range Track 1 0 Mode
18:mode = "auto"

kind Track 1 0 Lane
18:lane = 1

kind Track 1 0 Lane
18:lane = [1]

kind Track 1 0 Lane
18:lane = [[0]]

kind Track 1 0 Lane
18:lane = [[0, 1, 2]]

kind Track 1 0 Lane
18:lane = [[0, true]]

kind Track 1 0 Lane
18:lane = [["0", 0]]

range Track 1 0 Lane
18:lane = [[-1, 0]]

range Track 1 0 Lane
18:lane = [[1099511627776, 0]]

range Track 1 0 Lane
18:lane = [[0, 262145]]

range Track 1 0 Lane
18:lane = [[0, -1]]

range Track 1 0 Lane
18:lane = [[4, 0], [4, 1]]

range Track 1 0 Lane
18:lane = [[4, 0], [3, 0]]

kind Track 1 0 Send
18:send = 1

kind Track 1 0 Send
18:send = [1]

range Track 1 0 Send
18:send = [{}, {}, {}, {}, {}, {}, {}, {}, {}]

ok
18:lane = [[0, 262144], [1099511627775, 0]]

ok
18:mode = "play"

ok
18:gain = 262144

missing TrackSend 1 1 To
18:send = [{}]

kind TrackSend 1 1 To
18:send = [{ to = 1 }]

range TrackSend 1 1 To
18:send = [{ to = "B" }]

kind TrackSend 1 1 Pre
18:send = [{ to = "master", pre = 1 }]

kind TrackSend 1 1 Gain
18:send = [{ to = "master", gain = "1" }]

range TrackSend 1 1 Gain
18:send = [{ to = "master", gain = 262145 }]

unknown TrackSend 1 1
18:send = [{ to = "master", x = 1 }]

ok
18:send = [{ to = "master" }]

missing TrackSend 1 2 To
18:send = [{ to = "master" }, {}]

kind Track 1 0 Region
18:region = 1
19:
20:
21:
22:
23:

kind Track 1 0 Region
18:region = [[]]
19:
20:
21:
22:
23:"#,
    59,
);
