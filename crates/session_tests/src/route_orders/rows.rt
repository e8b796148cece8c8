//! Graphs, with what is found of them.
use super::graphs::Bus;

/// What is found of a graph.
pub(crate) enum Found {
    /// Its routes in this order.
    Order(&'static [u32]),
    /// So many routes, between this first and this last one.
    Between(usize, u32, u32),
    /// The first route on a cycle.
    Cycle(u32),
    /// Its links alone are looked at.
    Any,
}

/// Busses, what is found of them, and links of which each closes a cycle or not.
pub(crate) struct Row {
    pub(crate) busses: &'static [Bus],
    pub(crate) found: Found,
    pub(crate) links: &'static [(u32, u32, bool)],
}

pub(crate) const LINE: &[Bus] = &[(1, None), (2, None), (3, None)];

pub(crate) const LINE_BACK: &[Bus] = &[(3, None), (0, None), (1, None)];

pub(crate) const ROWS: &[Row] = &[
    // a chain goes from its end, and a link back along it closes it: two links far, from the master, one link far and to
    // itself; a link forth doesn't, nor does a second one the same way
    Row {
        busses: LINE,
        found: Found::Order(&[0, 1, 2, 3]),
        links: &[
            (2, 0, true),
            (3, 0, true),
            (1, 0, true),
            (1, 1, true),
            (0, 2, false),
            (0, 1, false),
        ],
    },
    Row {
        busses: LINE_BACK,
        found: Found::Order(&[2, 1, 0, 3]),
        links: &[],
    },
    // a diamond opens and closes
    Row {
        busses: &[(3, None), (3, None), (0, Some(1))],
        found: Found::Between(4, 2, 3),
        links: &[],
    },
    // the master alone, and one that feeds it twice
    Row {
        busses: &[],
        found: Found::Order(&[0]),
        links: &[],
    },
    Row {
        busses: &[(1, Some(1))],
        found: Found::Order(&[0, 1]),
        links: &[],
    },
    // a cycle through outputs
    Row {
        busses: &[(1, None), (0, None)],
        found: Found::Cycle(0),
        links: &[],
    },
    // through a send, and past the first route
    Row {
        busses: &[(3, None), (3, Some(2)), (1, None)],
        found: Found::Cycle(1),
        links: &[],
    },
    // a route that leads into a cycle isn't on it
    Row {
        busses: &[(1, None), (2, None), (1, None)],
        found: Found::Cycle(1),
        links: &[],
    },
    // two cycles, of 1 and 4 and of 2 and 3
    Row {
        busses: &[(5, None), (4, None), (3, None), (2, None), (1, None)],
        found: Found::Cycle(1),
        links: &[],
    },
    // a route that sends to itself
    Row {
        busses: &[(1, Some(0))],
        found: Found::Cycle(0),
        links: &[],
    },
    // no cycle
    Row {
        busses: &[(1, None)],
        found: Found::Order(&[0, 1]),
        links: &[],
    },
    // a send counts as an output does
    Row {
        busses: &[(2, Some(1)), (2, None)],
        found: Found::Any,
        links: &[(1, 0, true), (0, 1, false)],
    },
    // a link whose ends stand on a cycle closes one, and another cycle says nothing
    Row {
        busses: &[(1, None), (0, None), (3, None)],
        found: Found::Any,
        links: &[(0, 1, true), (2, 0, false), (0, 2, false)],
    },
];
