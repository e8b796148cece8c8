//! A report, and its lines damaged.

pub(crate) const BASE: [&str; 7] = [
    "report 1",
    "format 48000 16 1 4 2",
    "edit 1 locate 0",
    "edit 2 roll",
    "cycle 1 2 2 rolling 1 0 h0/-",
    "cycle 2 2 2 rolling 1 1 h0/-",
    "end 2",
];

/// What is told where the line of a place stands twice; behind the end nothing is read.
pub(crate) const DOUBLED: [u64; 6] = [2, 3, 4, 5, 6, 7];

/// The place of a line, from 0, what stands there, and the line that is told.
pub(crate) const REPLACED: &[(usize, &str, u64)] = &[
    // no report begins: the line behind the last
    (0, "report 2", 8),
    (0, "report 1 ", 8),
    (0, " report 1", 8),
    (0, "Report 1", 8),
    (0, "", 8),
    // the form
    (1, "format 7999 16 1 4 2", 2),
    (1, "format 192001 16 1 4 2", 2),
    (1, "format 48000 8 1 4 2", 2),
    (1, "format 48000 20 1 4 2", 2),
    (1, "format 48000 16 0 4 2", 2),
    (1, "format 48000 16 3 4 2", 2),
    (1, "format 48000 16 1 0 2", 2),
    (1, "format 48000 16 1 4097 2", 2),
    (1, "format 48000 16 1 4 0", 2),
    (1, "format 48000 16 1 4 100001", 2),
    (1, "format 048000 16 1 4 2", 2),
    (1, "format 48000 16 1 4", 2),
    (1, "format 48000 16 1 4 2 2", 2),
    (1, "format  48000 16 1 4 2", 2),
    (1, "format 48000 16 1 4 2 ", 2),
    (1, "Format 48000 16 1 4 2", 2),
    (1, "report 1", 2),
    // one cycle was asked, and two were made
    (1, "format 48000 16 1 4 1", 6),
    // an edit
    (2, "edit 0 locate 0", 3),
    (2, "edit 2 locate 0", 3),
    (2, "edit 01 locate 0", 3),
    (2, "edit 1 locate 00", 3),
    (2, "edit 1  locate 0", 3),
    (2, "edit 1 locate 0 ", 3),
    (2, "edit 1 locate", 3),
    (2, "edit 1 locate 18446744073709551616", 3),
    (2, "edit 1 wait 1", 3),
    (2, "edit 1 sync", 3),
    (2, "edit 1 # locate", 3),
    (2, "edit 1 add t 0 a 0 1 0 0", 3),
    (2, "edit 1 LOCATE 0", 3),
    (2, "edit 1", 3),
    (3, "edit 1 roll", 4),
    (3, "edit 3 roll", 4),
    // an entry
    (4, "cycle 0 2 2 rolling 1 0 h0/-", 5),
    (4, "cycle 2 2 2 rolling 1 0 h0/-", 5),
    (4, "cycle 1 10001 2 rolling 1 0 h0/-", 5),
    (4, "cycle 1 2 10001 rolling 1 0 h0/-", 5),
    (4, "cycle 1 2 2 rolling 10001 0 h0/-", 5),
    (4, "cycle 1 2 2 rolling 1 100000 h0/-", 5),
    (4, "cycle 1 2 2 rolling 1 0 h10001/-", 5),
    (4, "cycle 1 2 2 rolling 1 0 h0", 5),
    (4, "cycle 1 2 2 rolling 1 0 h/-", 5),
    (4, "cycle 1 2 2 rolling 1 0 h00/-", 5),
    (4, "cycle 1 2 2 rolling 1 0 s18446744073709551616/-", 5),
    (4, "cycle 1 2 2 rolling 1 0 h0/t0.0", 5),
    (4, "cycle 1 2 2 rolling 1 0 h0/t100001.0", 5),
    (4, "cycle 1 2 2 rolling 1 0 h0/t1.100000", 5),
    (4, "cycle 1 2 2 rolling 1 0 h0/t1", 5),
    (4, "cycle 1 2 2 rolling 1 0 h0/l1.0", 5),
    (4, "cycle 1 2 2 rolling 1 0 h0/t1.0.0", 5),
    (4, "cycle 1 2 2 rolling 1 0 h0/-  h0/-", 5),
    (4, "cycle 1 2 2 rolling 1 0 h0/- ", 5),
    (4, "cycle 1 2 2 rolling 1 h0/-", 5),
    (4, "cycle 1 2 2 seeking 0 1 -/-", 5),
    (4, "cycle 1 2 2 seeking 33 1 -/-", 5),
    (4, "cycle 1 2 2 seeking 1 18446744073709551616 -/-", 5),
    (4, "cycle 1 2 2 stop -/-", 5),
    (4, "cycle 1 2 2", 5),
    // 33 notes
    (
        4,
        "cycle 1 2 2 stopped -/- -/- -/- -/- -/- -/- -/- -/- -/- -/- -/- -/- -/- -/- -/- -/- -/- -/- -/- -/- -/- -/- -/- -/- \
            -/- -/- -/- -/- -/- -/- -/- -/- -/-",
        5,
    ),
    // the first entry is missed
    (4, "edit 3 roll", 6),
    (5, "edit 3 roll", 6),
    (5, "cycle 3 2 2 rolling 1 1 h0/-", 6),
    (5, "cycle 1 2 2 rolling 1 1 h0/-", 6),
    // the end
    (5, "end 2", 6),
    (6, "end 1", 7),
    (6, "end 3", 7),
    (6, "end 02", 7),
    (6, "end", 7),
    (6, "end 2 ", 7),
    (6, "cycle 3 2 2 rolling 1 2 h0/-", 7),
];

/// The place of a line, from 0, and what may stand there.
pub(crate) const SOUND: &[(usize, &str)] = &[
    (0, "report 1"),
    (1, "format 8000 24 2 4096 100000"),
    (1, "format 192000 16 1 1 2"),
    (2, "edit 1 locate 18446744073709551615"),
    (2, "edit 1 add t 999999 a 0 18446744073709551615 0 65535"),
    (3, "edit 2 quit"),
    (
        4,
        "cycle 1 10000 10000 rolling 10000 99999 h10000/t100000.99999",
    ),
    (4, "cycle 1 0 0 stopped"),
    (
        4,
        "cycle 1 2 2 seeking 32 18446744073709551615 -/- s18446744073709551615/l1.0.18446744073709551615",
    ),
    (
        4,
        "cycle 1 2 2 stopped -/- -/- -/- -/- -/- -/- -/- -/- -/- -/- -/- -/- -/- -/- -/- -/- -/- -/- -/- -/- -/- -/- -/- -/- \
            -/- -/- -/- -/- -/- -/- -/- -/-",
    ),
];
