//! The places of consecutive frames: one division at the first, and none at those that follow.
ghost use Rattle.std.specs.Prelude.{◌≡◌, ◌+◌, ◌<◌, ◌≤◌, ◌^◌, length, map};
ghost use Rattle.std.specs.List.{range_with_len};
ghost use Rattle.engine_model.specs.Transport.{place_of};
ghost use Rattle.locate_loop.specs.Transport.{transport_of, IsTransport, place_after};

use crate::transport::Transport;

/// The place that follows another in a generation.
#[tactic(auto, unfolding(crate::specs::Transport::place_after))]
fn after(t: &Transport, place: u64) -> u64
    requires { place < 2 ^ 41 }
    ensures { result ≡ place_after (transport_of t.now) place }
{
    match t.wrap {
        Some(w) if t.target < w.to && place + 1 == w.to => w.from,
        _ => place + 1,
    }
}

/// The places of the frames from `first` on, one for each of `out`.
pub fn places(t: &Transport, first: u64, out: &mut [u64])
    requires bounds { IsTransport t.now }
    requires frames { first + length out.old ≤ 2 ^ 30 }
    ensures { out.new ≡ map (λ i. place_of (transport_of t.now) (first + i))
        (range_with_len 0 (length out.old)) }
{
    let n = out.len();
    if n == 0 {
        return;
    }
    let mut place = t.place(first);
    for i in 0..n {
        out[i] = place;
        place = after(t, place);
    }
}
