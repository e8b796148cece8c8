//! A list of a fixed room, once.
use session_model::Samples;
use std::alloc::Global;

// Whether a list with room for two holds these.
fn holds(list: &Samples, items: &[i32]) -> bool {
    list.as_slice() == items
        && list.is_full() == (items.len() == 2)
        && (list.len(), list.room()) == (items.len(), 2)
}

// Whether 7 and 8 are put in, of which the first becomes 9, and the second is taken out again.
fn is_filled(list: &mut Samples) -> bool {
    for item in [7, 8] {
        if list.is_full() {
            return false;
        }
        list.push(item);
    }
    if let [first, ..] = list.as_mut_slice() {
        *first = 9;
    }
    holds(list, &[9, 8]) && !list.is_empty() && list.pop() == 8 && holds(list, &[9])
}

/// Whether a list fills to its room, and gives its items back, of which it is made again.
pub(super) fn is_right(alloc: Global) -> bool {
    match Samples::new(alloc, 2) {
        Ok(mut list) => {
            let filled = is_filled(&mut list);
            let items = list.into_vec();
            filled && items.len() <= 2 && holds(&Samples::from_vec(items), &[9])
        }
        Err(_) => false,
    }
}
