//! Lanes as arrays of pairs.
ghost use Rattle.std.specs.Prelude.{◌≡◌, ◌^◌, ◌<◌, IfOk, OnOk};
ghost use Rattle.toml.specs.View.{view};
ghost use Rattle.ses_units.specs.Lane.{IsLane};
ghost use Rattle.ses_units.specs.Point.{point_of};
ghost use Rattle.session_text.specs.Tables as spec;

use ses_io::NoMemory;
use ses_units::{Lane, Point};
use std::alloc::Global;
use toml::Value;

fn pair(alloc: Global, p: &Point) -> Result<Value, NoMemory>
    requires { p.now.at < 2 ^ 63 }
    ensures { IfOk result (λ v. view v ≡ spec.pair (point_of p.now)) }
{
    let mut numbers = Vec::new(alloc);
    numbers.push(Value::Integer(p.at as i64))?;
    numbers.push(Value::from(p.gain.value()))?;
    Ok(Value::Array(numbers))
}

/// The points of a lane, each a pair of its position and its gain.
pub(crate) fn pairs(alloc: Global, lane: &Lane) -> Result<Value, NoMemory>
    ensures value { IfOk result (λ v. view v ≡ spec.pairs lane.now) }
    ensures kept { OnOk result (IsLane lane.now) }
{
    let mut points = Vec::new(alloc);
    for p in lane.points() {
        points.push(pair(alloc, p)?)?;
    }
    Ok(Value::Array(points))
}
