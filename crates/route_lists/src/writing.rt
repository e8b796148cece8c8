//! The writer: it tries each edit on an edition of its own, and publishes what is accepted.
ghost use Rattle.std.specs.Prelude.{◌≡◌, true, false, IsTrue, MatchResult};
ghost use Rattle.session_model.specs.declared.session.Session.{Session as Opening};
ghost use Rattle.engine_model.specs.Edits.{keeps_forms};
ghost use Rattle.edition_log.specs.EditionState.{IsOpen, IsEditionOf};
ghost use Rattle.route_lists.specs.Answers.{Publishes};

use crate::known::{Known, Looks, OneList};
use crate::shelf::Shelf;
use crate::step::Step;
use edition_log::{Edition, Refusal};
use left_right::writer::Writer;
use ses_io::NoMemory;
use session_model::Edit;
use std::marker::Model;
use std::sync::Wait;

/// Why an edit wasn't published. The list is then as it was.
#[derive(Clone, Copy, PartialEq, Eq)]
pub enum PublishRefusal {
    /// The edition doesn't accept the edit.
    Refused(Refusal),
    /// There is no memory to note the edit for the second copy of the list.
    NoMemory,
}

/// The one writer of the list, with the edition of what it published. It owns the handle for waiting, so that it can be dropped,
/// as all that a thread's closure owns must be: the drop waits for the readers, which then enter no more.
pub struct Lists<'r, R: Wait> {
    pub(crate) writer: Writer<Shelf, Step, Known, OneList>,
    pub(crate) rt: &'r R,
    pub(crate) edition: Edition,
}

impl<'r, R: Wait> Model for Lists<'r, R> {
    ghost use Rattle.std.specs.Prelude.{drop};
    ghost use Rattle.left_right.specs.Sides.{view as known_of};
    ghost use Rattle.route_lists.specs.Lists.{Published, IsShown};

    ghost Value = { Published };

    ghost view = { λ w. record { edition = w.edition; table = w.writer.desk.place.table_id } };

    ghost invariant = { λ w. let shelf = w.writer.desk.shown.value in
        IsShown shelf.edits.items shelf.ended (drop w.writer.behind w.writer.log.items)
        (known_of w.writer.desk.place) w.edition };
}

impl<'r, R: Wait> Drop for Lists<'r, R> {
    fn drop(self) {
        let Lists {
            writer,
            rt,
            edition: _,
        } = self;
        drop(writer.take(rt));
    }
}

impl<'r, R: Wait> Lists<'r, R> {
    /// Takes in one more edit and publishes it, and answers the number of the edition that it makes. A refused edit is never
    /// published. It may wait for readers that still read what was published before the last call.
    pub fn apply_and_publish(self, edit: &Edit) -> (Lists<'r, R>, Result<u32, PublishRefusal>)
        requires forms { IsTrue (keeps_forms edit.now) }
        requires open { IsOpen self.edition }
        ensures answer { Publishes self.entry.edition edit.now result.1 result.0.edition }
        ensures stays { (s : Opening) → IsEditionOf s self.entry.edition
            → IsEditionOf s result.0.edition }
    {
        if let Err(why) = self.edition.admits(edit) {
            return (self, Err(PublishRefusal::Refused(why)));
        }
        let Lists {
            mut writer,
            rt,
            mut edition,
        } = self;
        let Ok(()) = writer.append(Step::adding(edit)) else {
            let same = Lists {
                writer,
                rt,
                edition,
            };
            return (same, Err(PublishRefusal::NoMemory));
        };
        // Taking in can't fail, so the edit is shown now.
        let (writer, _shown) = writer.publish_as::<Looks, R>(rt);
        let answer = edition.apply(edit).map_err(PublishRefusal::Refused);
        let next = Lists {
            writer,
            rt,
            edition,
        };
        (next, answer)
    }

    /// Publishes that no edit follows. It may wait for readers that still read what was published before the last call.
    pub fn end(self) -> (Lists<'r, R>, Result<(), NoMemory>)
        requires { self.edition.ended ≡ false }
        ensures answer { MatchResult result.1
            (λ _. result.0.edition ≡ record self.entry.edition { ended = true })
            (λ _. result.0.edition ≡ self.entry.edition) }
        ensures stays { (s : Opening) → IsEditionOf s self.entry.edition
            → IsEditionOf s result.0.edition }
    {
        let Lists {
            mut writer,
            rt,
            mut edition,
        } = self;
        let Ok(()) = writer.append(Step::End) else {
            let same = Lists {
                writer,
                rt,
                edition,
            };
            return (same, Err(NoMemory));
        };
        // Taking in can't fail, so the end is shown now.
        let (writer, _shown) = writer.publish_as::<Looks, R>(rt);
        edition.end();
        let next = Lists {
            writer,
            rt,
            edition,
        };
        (next, Ok(()))
    }

    /// The session after the edits that were published; nothing is published any more. It may wait for readers, which then enter
    /// no more.
    pub fn close(self) -> Edition
        ensures { result ≡ self.entry.edition }
    {
        let Lists {
            writer,
            rt,
            edition,
        } = self;
        drop(writer.take(rt));
        edition
    }

    /// The session after the edits that were published.
    pub fn edition(&self) -> &Edition
        ensures { result.now ≡ self.now.edition }
    {
        &self.edition
    }
}
