//! Control's end of the ring of grants: how it allows cycles.
ghost use Rattle.std.specs.Prelude.{◌≡◌, true, false};
ghost use Rattle.cycle_grants.specs.Granting.{Allows, is_full};

use disk_ring::{Full, RingIn};
use run_world::Grant;
use std::marker::Model;
use thiserror::Error;

/// The end that puts grants.
#[derive(Drop)]
pub struct Granting {
    to: RingIn<Grant>,
    husk: Option<Box<Grant>>,
    over: bool,
}

impl Model for Granting {
    ghost use Rattle.std.specs.Prelude.{◌≡◌, IsSome, true, false};
    ghost use Rattle.cycle_grants.specs.Granting.{GrantingState, is_full};

    ghost Value = { GrantingState };

    ghost view = { λ g. record { to = g.to; over = g.over } };

    ghost invariant = { λ g. IsSome g.husk × (g.to.room ≡ 0) × (g.to.closed ≡ false)
        × (g.over ≡ true → is_full (record { to = g.to; over = g.over }) ≡ true) };
}

/// Why a grant wasn't put.
#[derive(Clone, Copy, Debug, PartialEq, Eq, Error)]
pub enum NotGranted {
    /// The ring is full, by this head: so many grants had been received. It may be tried again.
    #[error("the ring of grants is full")]
    Full { head: u64 },
    /// A grant was left out before, so none is put any more.
    #[error("a grant was left out before")]
    LeftOut,
}

/// What a granting gives back: its end of the ring, and the spare box.
#[derive(Drop)]
pub struct GrantingParts {
    pub to: RingIn<Grant>,
    pub husk: Box<Grant>,
}

impl Granting {
    /// Of an open ring, with a spare box.
    pub fn new(to: RingIn<Grant>, husk: Box<Grant>) -> Granting
        requires open { to.closed ≡ false }
        requires room { to.room ≡ 0 }
        ensures { result ≡ record { to = to; over = false } }
    {
        Granting {
            to,
            husk: Some(husk),
            over: false,
        }
    }

    /// Puts this one grant, unless one was left out before. Where the ring is full its owner says
    /// when it is tried again, or that it is left out. It takes no memory, no lock and no wait.
    pub fn allow(&mut self, grant: Grant) -> Result<(), NotGranted>
        ensures { Allows grant self.old result self.new }
    {
        if self.over {
            return Err(NotGranted::LeftOut);
        }
        let Some(mut full) = self.husk.take() else {
            unreachable!()
        };
        *full = grant;
        match self.to.put(full) {
            Ok(husk) => {
                self.husk = Some(husk);
                Ok(())
            }
            Err(Full { item, head }) => {
                self.husk = Some(item);
                Err(NotGranted::Full { head })
            }
        }
    }

    /// The grant that was tried last is left out, and so are all that follow.
    pub fn leave_out(&mut self)
        requires { is_full self.old ≡ true }
        ensures { self.new ≡ record self.old { over = true } }
    {
        self.over = true;
    }

    /// Gives its end of the ring and the spare box back. Where a grant was left out the ring was
    /// full.
    pub fn parts(self) -> GrantingParts
        ensures ring { result.to ≡ self.to }
        ensures full { self.over ≡ true → is_full self ≡ true }
    {
        let Granting { to, husk, .. } = self;
        let Some(husk) = husk else { unreachable!() };
        GrantingParts { to, husk }
    }
}
