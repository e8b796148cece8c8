//! Keys of busses, of their sends, and of the master.

/// The rows, and how many there are.
pub(crate) const DESK: (&str, usize) = (
    r#"missing Bus 1 0 Name
24:[[bus]]

kind Bus 1 0 Name
24:[[bus]]|name = 1

range Bus 1 0 Name
24:[[bus]]|name = "master"

missing Bus 1 0 Channels
24:[[bus]]|name = "b"

kind Bus 1 0 Channels
24:[[bus]]|name = "b"|channels = "1"

range Bus 1 0 Channels
24:[[bus]]|name = "b"|channels = 3

unknown Bus 1 0
24:[[bus]]|name = "b"|channels = 1|solo = true

missing Bus 2 0 Name
24:[[bus]]|name = "b"|channels = 1|[[bus]]

kind Bus 1 0 Out
24:[[bus]]|name = "b"|channels = 1|out = 1

range Bus 1 0 Out
24:[[bus]]|name = "b"|channels = 1|out = "Out"

kind Bus 1 0 Gain
24:[[bus]]|name = "b"|channels = 1|gain = 1.0

range Bus 1 0 Gain
24:[[bus]]|name = "b"|channels = 1|gain = -1

range Bus 1 0 Gain
24:[[bus]]|name = "b"|channels = 1|gain = 262145

kind Bus 1 0 Mute
24:[[bus]]|name = "b"|channels = 1|mute = 0

kind Bus 1 0 Left
24:[[bus]]|name = "b"|channels = 1|left = true

range Bus 1 0 Left
24:[[bus]]|name = "b"|channels = 1|left = 262145

kind Bus 1 0 Right
24:[[bus]]|name = "b"|channels = 1|right = true

range Bus 1 0 Right
24:[[bus]]|name = "b"|channels = 1|right = -1

kind Bus 1 0 Mode
24:[[bus]]|name = "b"|channels = 1|mode = 1

range Bus 1 0 Mode
24:[[bus]]|name = "b"|channels = 1|mode = "auto"

kind Bus 1 0 Lane
24:[[bus]]|name = "b"|channels = 1|lane = 1

kind Bus 1 0 Lane
24:[[bus]]|name = "b"|channels = 1|lane = [1]

kind Bus 1 0 Lane
24:[[bus]]|name = "b"|channels = 1|lane = [[0]]

kind Bus 1 0 Lane
24:[[bus]]|name = "b"|channels = 1|lane = [[0, 1, 2]]

kind Bus 1 0 Lane
24:[[bus]]|name = "b"|channels = 1|lane = [[0, true]]

kind Bus 1 0 Lane
24:[[bus]]|name = "b"|channels = 1|lane = [["0", 0]]

range Bus 1 0 Lane
24:[[bus]]|name = "b"|channels = 1|lane = [[-1, 0]]

range Bus 1 0 Lane
24:[[bus]]|name = "b"|channels = 1|lane = [[1099511627776, 0]]

range Bus 1 0 Lane
24:[[bus]]|name = "b"|channels = 1|lane = [[0, 262145]]

range Bus 1 0 Lane
24:[[bus]]|name = "b"|channels = 1|lane = [[0, -1]]

range Bus 1 0 Lane
24:[[bus]]|name = "b"|channels = 1|lane = [[4, 0], [4, 1]]

range Bus 1 0 Lane
24:[[bus]]|name = "b"|channels = 1|lane = [[4, 0], [3, 0]]

kind Bus 1 0 Send
24:[[bus]]|name = "b"|channels = 1|send = 1

kind Bus 1 0 Send
24:[[bus]]|name = "b"|channels = 1|send = [1]

range Bus 1 0 Send
24:[[bus]]|name = "b"|channels = 1|send = [{}, {}, {}, {}, {}, {}, {}, {}, {}]

missing BusSend 1 1 To
24:[[bus]]|name = "b"|channels = 1|send = [{}]

kind BusSend 1 1 To
24:[[bus]]|name = "b"|channels = 1|send = [{ to = 1 }]

range BusSend 1 1 To
24:[[bus]]|name = "b"|channels = 1|send = [{ to = "B" }]

kind BusSend 1 1 Pre
24:[[bus]]|name = "b"|channels = 1|send = [{ to = "master", pre = 1 }]

kind BusSend 1 1 Gain
24:[[bus]]|name = "b"|channels = 1|send = [{ to = "master", gain = "1" }]

range BusSend 1 1 Gain
24:[[bus]]|name = "b"|channels = 1|send = [{ to = "master", gain = 262145 }]

unknown BusSend 1 1
24:[[bus]]|name = "b"|channels = 1|send = [{ to = "master", x = 1 }]

ok
24:[[bus]]|name = "b"|channels = 1|send = [{ to = "master" }]

missing BusSend 1 2 To
24:[[bus]]|name = "b"|channels = 1|send = [{ to = "master" }, {}]

unknown Master 1 0
24:[master]|out = "b"

ok
24:[master]|

kind Master 1 0 Gain
24:[master]|gain = true

range Master 1 0 Gain
24:[master]|gain = 262145

kind Master 1 0 Mute
24:[master]|mute = 1

kind Master 1 0 Mode
24:[master]|mode = 1

range Master 1 0 Mode
24:[master]|mode = "Play"

kind Master 1 0 Lane
24:[master]|lane = {}

range Master 1 0 Lane
24:[master]|lane = [[0, -1]]"#,
    53,
);
