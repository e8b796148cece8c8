//! How the inputs of routes are whole when the routes are taken in an order.

ghost use Rattle.mix_laws.specs.Mixing.{InputsAreFed, OrderSumsAll, OrderMixes, OrderIsWhole, TracksTakeTheirOwn, AlongGoesOn};

use sound_laws::{deeper_is_the_same, only_links_feed};

/// The input of a route is what it takes in of the inputs of all routes.
pub fn inputs_are_fed()
    ensures { InputsAreFed }
{
    deeper_is_the_same();
}

/// Along an order the routes give together what they give in their own order.
pub fn order_sums_all()
    ensures { OrderSumsAll }
{}

/// When a bus or the master is reached along an order, what those before it gave is its input.
pub fn order_mixes()
    ensures { OrderMixes }
{
    deeper_is_the_same();
    only_links_feed();
}

/// Where all routes of an order are done, what they gave is the input of a bus or the master.
pub fn order_is_whole()
    ensures { OrderIsWhole }
{
    deeper_is_the_same();
}

/// The input of a track's route is the track's own sample.
pub fn tracks_take_their_own()
    ensures { TracksTakeTheirOwn }
{
    deeper_is_the_same();
}

/// One more route along an order adds what it gives.
#[tactic(auto, using(crate::proofs::MixingLaws::along_goes_on))]
pub fn along_goes_on()
    ensures { AlongGoesOn }
{}
