//! The known list: it goes to place 0, 1, 2 and so on, and rolls or stops after each.
use edition_log::Edition;
use session_model::Edit;

/// Its edit of number `at + 1`.
pub(crate) fn known(at: u32) -> Edit {
    match at % 4 {
        1 => Edit::Roll,
        3 => Edit::Stop,
        _ => Edit::Locate {
            to: u64::from(at / 2),
        },
    }
}

// Whether the edit is that one.
fn is_known(edit: &Edit, at: u32) -> bool {
    match (*edit, known(at)) {
        (Edit::Roll, Edit::Roll) | (Edit::Stop, Edit::Stop) => true,
        (Edit::Locate { to }, Edit::Locate { to: place }) => to == place,
        _ => false,
    }
}

/// Whether an edition's edits are those of the known list, past the first so many.
pub(crate) fn is_known_from(e: &Edition, first: u32) -> bool {
    let edits = e.edits().as_slice();
    for at in first..e.number() {
        if !is_known(&edits[at as usize], at) {
            return false;
        }
    }
    true
}
