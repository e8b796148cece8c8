//! An edition takes in what a list has beyond its own edits.
ghost use Rattle.std.specs.Prelude.{◌≡◌, true};
ghost use Rattle.session_model.specs.declared.session.Session.{Session as Opening};
ghost use Rattle.edition_log.specs.EditionState.{IsEditionOf};
ghost use Rattle.route_lists.specs.Lists.{Follows, IsAt};

use crate::shelf::Shelf;
use edition_log::Edition;

/// Takes in the edits after its own and the end, one by one, and answers whether that was all. It stops where an edit isn't
/// accepted, or stands after a quit.
pub(crate) fn catch_up(edition: &mut Edition, shelf: &Shelf) -> bool
    requires { Follows shelf.now.edits.items shelf.now.ended edition.old }
    ensures follows { Follows shelf.now.edits.items shelf.now.ended edition.new }
    ensures all { result ≡ true → IsAt shelf.now.edits.items shelf.now.ended edition.new }
    ensures stays { (s : Opening) → IsEditionOf s edition.old → IsEditionOf s edition.new }
{
    for at in edition.number() as usize..shelf.edits.len() {
        // None is left where it ended, so only a quit is tested.
        if edition.transport().quit {
            return false;
        }
        let Ok(_number) = edition.apply(&shelf.edits.as_slice()[at]) else {
            return false;
        };
    }
    if shelf.ended {
        edition.end();
    }
    true
}
