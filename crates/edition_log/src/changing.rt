//! A change of a session is made, with the order of its routes and the numbers of its playlists' edits.
ghost use Rattle.std.specs.Prelude.{◌≡◌, ◌<◌, ℕ, Some};
ghost use Rattle.session_model.specs.Views.{routes_of};
ghost use Rattle.route_graph.specs.Order.{IsOrder};
ghost use Rattle.engine_model.specs.Changes.{made};
ghost use Rattle.engine_model.specs.MayMake.{MayMake};
ghost use Rattle.edit_laws.specs.CommandLaws.{IsWhole};
ghost use Rattle.session_change.specs.Change.{change_seen, list_of};
ghost use Rattle.edition_log.specs.Steps.{noted};

use edit_laws::made_keeps_valid;
use route_graph::Order;
use session_change::{Change, a_change_that_relinks_nothing_keeps_the_order, make};
use session_model::Session;

/// Makes a change of the session, and keeps the order in force. It takes no memory.
pub(crate) fn change_session(session: &mut Session, order: &mut Order, change: &Change)
    requires whole { IsWhole session.old }
    requires order { IsOrder (routes_of session.old) order.old }
    requires may { MayMake session.old (change_seen change.now) }
    ensures made { session.new ≡ made session.old (change_seen change.now) }
    ensures whole { IsWhole session.new }
    ensures order { IsOrder (routes_of session.new) order.new }
{
    // Their contracts are the laws that this stands on.
    made_keeps_valid();
    a_change_that_relinks_nothing_keeps_the_order();
    make(session, change);
    if change.relinks() {
        order.renew(session);
    }
}

/// Notes the number of an edit at the track whose playlist it changed.
pub(crate) fn note(touched: &mut [u32; 32], change: &Change, number: u32)
    requires { (t : ℕ) → list_of (change_seen change.now) ≡ Some t → t < 32 }
    ensures { touched.new ≡ noted (list_of (change_seen change.now)) number touched.old }
{
    if let Some(track) = change.track() {
        touched[track as usize] = number;
    }
}
