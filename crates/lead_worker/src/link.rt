//! What joins control with the process beside the list of edits.
ghost use Rattle.std.specs.Prelude.{◌≡◌, ◌⊎◌, ◌++◌, ◌∷◌, [], true, List};
ghost use Rattle.engine_model.specs.Waited.{Grant as Granted, Pace, Pause, Sought};
ghost use Rattle.cycle_grants.specs.Grants.{grant_of};
ghost use Rattle.cycle_grants.specs.Granting.{is_full};
ghost use Rattle.lead_worker.specs.Heard.{has_settled};
ghost use Rattle.lead_worker.specs.Links.{GoesOnLink, IsPaced, IsPacedWhole, KeepsGrants};

use crate::hearing::AckHearing;
use cycle_grants::{Granting, NotGranted};
use disk_ring::{RingIn, RingOut};
use piece_item::Ack;
use run_bells::Bells;
use run_world::Grant;
use std::sync::Wait;

/// The grants that control puts, and the acknowledgements that it takes.
#[derive(Drop)]
pub struct ProcessLink {
    pub granting: Granting,
    pub hearing: AckHearing,
    // the cycles of all grants that were put
    cycles: u64,
}

impl ProcessLink {
    /// Of these ends, by which no grant was put yet.
    pub fn new(granting: Granting, hearing: AckHearing) -> ProcessLink
        ensures granting { result.granting ≡ granting }
        ensures hearing { result.hearing ≡ hearing }
    {
        ProcessLink {
            granting,
            hearing,
            cycles: 0,
        }
    }

    // Puts a grant, as soon as there is room. Once no acknowledgement comes any more, one that finds the ring full is left out,
    // with all that follow.
    fn allow<R: Wait>(&mut self, rt: &R, grant: Grant, bells: &Bells)
        ensures goes { GoesOnLink self.old self.new }
        ensures keeps { (asked : List Granted) → KeepsGrants asked self.old
            → KeepsGrants (asked ++ grant_of grant ∷ []) self.new }
    {
        for _try in rt.forever() {
            match self.granting.allow(grant) {
                Ok(()) => {
                    self.cycles = self.cycles.saturating_add(u64::from(grant.cycles));
                    return;
                }
                Err(NotGranted::LeftOut) => return,
                Err(NotGranted::Full { head: _ }) => {
                    if self.hearing.hear() {
                        self.granting.leave_out();
                        return;
                    }
                    bells.rest_control(rt);
                }
            }
        }
        unreachable!()
    }

    // Takes acknowledgements until the process has made so many entries, or makes none any more.
    fn rest_until<R: Wait>(&mut self, rt: &R, entries: u64, bells: &Bells)
        ensures goes { GoesOnLink self.old self.new }
        ensures keeps { (asked : List Granted) → KeepsGrants asked self.old
            → KeepsGrants asked self.new }
    {
        for _look in rt.forever() {
            let far = bells.progress();
            self.hearing.hear();
            if far.ended || far.entries >= entries {
                return;
            }
            bells.rest_control(rt);
        }
        unreachable!()
    }

    /// A wait of so many cycles in this edition: they are granted, and until the process has made them, or has ended, control rests.
    pub(crate) fn pause<R: Wait>(&mut self, rt: &R, cycles: u32, edition: u32, bells: &Bells)
        ensures goes { GoesOnLink self.old self.new }
        ensures paced { (paces : List Pace) → IsPaced paces self.old
            → IsPaced (paces ++ Pause cycles edition ∷ []) self.new }
    {
        self.allow(rt, Grant { cycles, edition }, bells);
        self.rest_until(rt, self.cycles, bells);
    }

    // Whether an acknowledgement has the edition settled.
    fn has_settled(&self, edition: u32) -> bool
        ensures { result ≡ has_settled edition self.now.hearing.received }
    {
        match self.hearing.best() {
            Some(best) => edition <= best.settled,
            None => false,
        }
    }

    /// A sync in this edition: single cycles are granted, until an acknowledgement has it settled, or none comes any more. Whether
    /// none comes.
    pub(crate) fn seek<R: Wait>(&mut self, rt: &R, edition: u32, bells: &Bells) -> bool
        ensures goes { GoesOnLink self.old self.new }
        ensures paced { (paces : List Pace) → IsPaced (paces ++ Sought edition ∷ []) self.old
            → IsPaced (paces ++ Sought edition ∷ []) self.new }
        ensures found { (result ≡ true)
            ⊎ (has_settled edition self.new.hearing.received ≡ true) }
        ensures closed { result ≡ self.new.hearing.ended }
    {
        for _grant in rt.forever() {
            let before = bells.progress().entries;
            let closed = self.hearing.hear();
            if closed || self.has_settled(edition) {
                return closed;
            }
            self.allow(rt, Grant { cycles: 1, edition }, bells);
            self.rest_until(rt, before.saturating_add(1), bells);
        }
        unreachable!()
    }

    /// The end of control: so many cycles are granted in this edition.
    pub(crate) fn allow_all<R: Wait>(&mut self, rt: &R, cycles: u32, edition: u32, bells: &Bells)
        ensures goes { GoesOnLink self.old self.new }
        ensures paced { (paces : List Pace) → IsPaced paces self.old
            → IsPacedWhole cycles edition paces self.new }
    {
        self.allow(rt, Grant { cycles, edition }, bells);
    }

    /// Gives its ends of the two rings back. Where a grant was left out the ring was full.
    pub fn ends(self) -> (RingIn<Grant>, RingOut<Ack>)
        ensures grants { result.0 ≡ self.granting.to }
        ensures acks { result.1 ≡ self.hearing }
        ensures full { self.granting.over ≡ true → is_full self.granting ≡ true }
    {
        let ProcessLink {
            granting,
            hearing,
            cycles: _,
        } = self;
        (granting.parts().to, hearing.end())
    }
}
