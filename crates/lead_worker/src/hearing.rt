//! Control's end of its ring of acknowledgements.
ghost use Rattle.std.specs.Prelude.{◌≡◌, ◌++◌, ◌∷◌, [], None, IfSome, List};
ghost use Rattle.lead_worker.specs.Heard.{HasBest, Hears, HearsNone, HearsOne};

use disk_ring::{Nothing, RingOut};
use piece_item::Ack;
use std::marker::Model;

/// The end that takes acknowledgements, with a spare box. Contracts see it as that end.
#[derive(Drop)]
pub struct AckHearing {
    from: RingOut<Ack>,
    husk: Option<Box<Ack>>,
    best: Option<Ack>,
}

impl Model for AckHearing {
    ghost use Rattle.std.specs.Prelude.{◌≡◌, IsSome};
    ghost use Rattle.disk_ring.specs.Receiver.{Receiver};
    ghost use Rattle.piece_item.specs.declared.ack.Ack.{Ack};
    ghost use Rattle.lead_worker.specs.Heard.{HasBest};

    ghost Value = { Receiver Ack };

    ghost view = { λ h. h.from };

    ghost invariant = { λ h. IsSome h.husk × (h.from.room ≡ 0) × HasBest h.from.received h.best };
}

// The newer one of the best so far and one that was taken after it, unless that has settled less.
fn better(best: Option<Ack>, ack: Ack) -> Option<Ack>
    ensures { (acks : List Ack) → HasBest acks best → HasBest (acks ++ ack ∷ []) result }
{
    match best {
        Some(best) if ack.settled < best.settled => Some(best),
        Some(_) | None => Some(ack),
    }
}

impl AckHearing {
    /// Of a ring of which nothing was taken yet, with a spare box.
    pub fn new(from: RingOut<Ack>, husk: Box<Ack>) -> AckHearing
        requires fresh { from.received ≡ [] }
        requires room { from.room ≡ 0 }
        ensures { result ≡ from }
    {
        AckHearing {
            from,
            husk: Some(husk),
            best: None,
        }
    }

    // Takes one. Where there is none, whether none comes any more.
    fn hear_one(&mut self) -> Option<bool>
        ensures one { result ≡ None → HearsOne self.old self.new }
        ensures none { IfSome result (λ closed. HearsNone self.old closed self.new) }
    {
        let Some(husk) = self.husk.take() else {
            unreachable!()
        };
        match self.from.take(husk) {
            Ok(ack) => {
                self.best = better(self.best, *ack);
                self.husk = Some(ack);
                None
            }
            Err(Nothing::Empty { husk, tail: _ }) => {
                self.husk = Some(husk);
                Some(false)
            }
            Err(Nothing::Closed { husk, tail: _ }) => {
                self.husk = Some(husk);
                Some(true)
            }
        }
    }

    /// Takes acknowledgements until there is none. Whether none comes any more.
    pub fn hear(&mut self) -> bool
        ensures hears { Hears self.old self.new }
        ensures closed { result ≡ self.new.ended }
    {
        loop {
            if let Some(closed) = self.hear_one() {
                return closed;
            }
        }
    }

    /// The newest of those that were taken, of such that have settled most.
    pub fn best(&self) -> Option<Ack>
        ensures { HasBest self.now.received result }
    {
        self.best
    }

    /// Gives its end of the ring back.
    pub fn end(self) -> RingOut<Ack>
        ensures { result ≡ self }
    {
        let AckHearing { from, .. } = self;
        from
    }
}
