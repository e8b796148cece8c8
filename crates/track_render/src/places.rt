//! How many places of a transport follow one another.
ghost use Rattle.std.specs.Prelude.{◌≡◌, ◌≢◌, ℕ, ◌+◌, ◌-◌, ◌<◌, ◌≤◌};
ghost use Rattle.locate_loop.specs.Transport.{transport_of, IsTransport, place_after};

use locate_loop::Transport;

/// How many of so many frames, from the one at a place on, have places that follow one another.
pub(crate) fn following(t: &Transport, place: u64, most: usize) -> usize
    requires transport { IsTransport t.now }
    requires some { 0 < most }
    ensures some { 0 < result }
    ensures most { result ≤ most }
    ensures follow { (k : ℕ) → k + 1 < result
        → place_after (transport_of t.now) (place + k) ≡ place + k + 1 }
    ensures longest { result < most
        → place_after (transport_of t.now) (place + result - 1) ≢ place + result }
{
    match t.wrap {
        Some(w) if t.target < w.to && place < w.to => (w.to - place).min(most as u64) as usize,
        _ => most,
    }
}
