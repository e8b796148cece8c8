//! The rules that ask of numbers alone, and how one rule is asked after another.
ghost use Rattle.std.specs.Prelude.{◌≡◌, ◌+◌, nat_lt, IfOk};
ghost use Rattle.engine_model.specs.Refusals.{Far, Gain as Loud, refused_if};
ghost use Rattle.engine_model.specs.Commands.{is_far, ends_far, is_loud};
ghost use Rattle.edit_resolve.specs.Reason.{refusal_of};
ghost use Rattle.edit_resolve.specs.Resolves.{Asks};

use crate::reason::Refusal;
use ses_units::Gain;
use ses_units::limits::{END, LOUDEST};

/// A rule: where it is broken, the edit is refused.
pub(crate) fn refused_if(broken: bool, why: Refusal) -> Result<(), Refusal>
    ensures { Asks (refused_if broken (refusal_of why)) result }
{
    if broken { Err(why) } else { Ok(()) }
}

/// Whether two numbers come to more than a third, however large they are.
pub(crate) fn sum_passes(a: u64, b: u64, most: u64) -> bool
    ensures { result ≡ nat_lt most (a + b) }
{
    match a.checked_add(b) {
        Some(sum) => sum > most,
        None => true,
    }
}

/// The place lies before 2^40.
pub(crate) fn near(place: u64) -> Result<(), Refusal>
    ensures { Asks (refused_if (is_far place) (Far place)) result }
{
    refused_if(place >= END, Refusal::Far(place))
}

/// So many frames from the place on end at 2^40, or before.
pub(crate) fn ends_near(place: u64, long: u64) -> Result<(), Refusal>
    ensures { Asks (refused_if (ends_far place long) (Far place)) result }
{
    refused_if(sum_passes(place, long, END), Refusal::Far(place))
}

/// The gain of so many 65,536ths.
pub(crate) fn gain_of(number: u64) -> Result<Gain, Refusal>
    ensures quiet { Asks (refused_if (is_loud number) (Loud number)) result }
    ensures value { IfOk result (λ gain. gain ≡ number) }
{
    refused_if(number > u64::from(LOUDEST), Refusal::Gain(number))?;
    Ok(Gain::new(number as u32).unwrap())
}
