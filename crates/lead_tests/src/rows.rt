//! Scripts of control, and what comes of them, worked out by hand. Asked for are eight cycles, and the process has ended as far as
//! bells say.
use crate::leading::Row;

/// No acknowledgement comes, and none ever will.
const ALONE: Row = Row {
    control: b"",
    acks: &[],
    closed: true,
    replies: "",
    edits: 0,
    grants: &[(8, 0)],
};

/// The rows.
pub(crate) const ROWS: &[Row] = &[
    // nothing is said
    ALONE,
    // edits are accepted, and refused; a refused one makes no edition
    Row {
        control: b"roll\ngain u 1\nlocate 4\ngain t 262145\n",
        replies: "ok 1\nrefused no-route u\nok 2\nrefused gain 262145\n",
        edits: 2,
        grants: &[(8, 2)],
        ..ALONE
    },
    // a wait allows its cycles in the edition of its line
    Row {
        control: b"roll\nwait 3\nstop\n",
        replies: "ok 1\ndone\nok 2\n",
        edits: 2,
        grants: &[(3, 1), (8, 2)],
        ..ALONE
    },
    // the newest of the acknowledgements that have settled most is named
    Row {
        control: b"roll\nsync\n",
        acks: &[(3, 1), (4, 1)],
        closed: false,
        replies: "ok 1\nsynced 1 4\n",
        edits: 1,
        grants: &[(8, 1)],
    },
    // one of an older edition doesn't do
    Row {
        control: b"roll\nstop\nsync\n",
        acks: &[(3, 1), (4, 1)],
        replies: "ok 1\nok 2\nnot synced 2\n",
        edits: 2,
        grants: &[(8, 2)],
        ..ALONE
    },
    // edition 0 is heard once anything is
    Row {
        control: b"sync\n",
        acks: &[(1, 0)],
        replies: "synced 0 1\n",
        ..ALONE
    },
    // and with no acknowledgement at all it isn't
    Row {
        control: b"sync\nroll\n",
        replies: "not synced 0\nok 1\n",
        edits: 1,
        grants: &[(8, 1)],
        ..ALONE
    },
    // after an accepted quit no line is taken
    Row {
        control: b"roll\nquit\nroll\n",
        replies: "ok 1\nok 2\n",
        edits: 2,
        grants: &[(8, 2)],
        ..ALONE
    },
    // a line that is cut off by the end is one, and what isn't read is said
    Row {
        control: b"# a comment\n\nplay\nroll now\r\nstop",
        replies: "refused not-command\nrefused words 2\nok 1\n",
        edits: 1,
        grants: &[(8, 1)],
        ..ALONE
    },
    // a ring of two that stays full: the third grant is left out, with all that follow
    Row {
        control: b"wait 1\nwait 2\nroll\nwait 3\n",
        replies: "done\ndone\nok 1\ndone\n",
        edits: 1,
        grants: &[(1, 0), (2, 0)],
        ..ALONE
    },
    // the limit of what one wait may ask
    Row {
        control: b"wait 0\nwait 100000\nwait 100001\n",
        replies: "refused number 2\ndone\nrefused number 2\n",
        grants: &[(100_000, 0), (8, 0)],
        ..ALONE
    },
    // a quit that is refused ends nothing
    Row {
        control: b"quit now\nloop off\nroll\n",
        replies: "refused words 2\nrefused no-loop\nok 1\n",
        edits: 1,
        grants: &[(8, 1)],
        ..ALONE
    },
];
