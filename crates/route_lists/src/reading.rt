//! A reader: it enters the list without a lock, a wait or memory, and has two editions that take turns.
ghost use Rattle.std.specs.Prelude.{◌≡◌, ◌↔◌, true, IsTrue, MatchResult};
ghost use Rattle.session_model.specs.declared.session.Session.{Session as Opening};
ghost use Rattle.route_lists.specs.Lists.{Reading, IsReaderOf, IsAt};
ghost use Rattle.route_lists.specs.Answers.{Enters, HasSameTold};

use crate::catching_up::catch_up;
use crate::known::{Hear, Known, Looks, Note, OneList};
use crate::same_edit::same_edits;
use crate::shelf::Shelf;
use crate::writing::Lists;
use edition_log::Edition;
use left_right::reader::Reader;
use std::marker::Model;
use std::sync::Wait;

/// A reader of the list. `edition` is seen; `spare` is brought up next, and is seen once it took in all that is published.
/// Both are states after beginnings of what the reader has seen.
#[derive(Drop)]
pub struct ListReader {
    pub(crate) reader: Reader<Shelf, Known, OneList>,
    pub(crate) edition: Edition,
    pub(crate) spare: Edition,
}

impl Model for ListReader {
    ghost use Rattle.left_right.specs.Sides.{view as known_of};
    ghost use Rattle.route_lists.specs.Lists.{Reading, IsKept};

    ghost Value = { Reading };

    ghost view = { λ r. let v = known_of r.reader.place in record {
      edition = r.edition;
      spare = r.spare;
      told = v.told;
      told_end = v.told_end;
      table = r.reader.place.table_id;
    } };

    ghost invariant = { λ r. IsKept (known_of r.reader.place) r.edition r.spare };
}

impl ListReader {
    /// Enters the list as it is published now; it takes no lock, wait or memory. At `Ok` the edition has all of that list. At
    /// `Err` the writer is gone, or an edit that it published isn't accepted here; the edition is then as it was.
    pub fn enter(self) -> Result<ListReader, ListReader>
        ensures seen { MatchResult result (Enters self) (λ r. r.edition ≡ self.edition) }
        ensures told { MatchResult result (HasSameTold self) (HasSameTold self) }
        ensures stays { (s : Opening) → IsReaderOf s self
            → MatchResult result (IsReaderOf s) (IsReaderOf s) }
    {
        let ListReader {
            reader,
            edition,
            mut spare,
        } = self;
        let reading = match reader.enter_as::<Looks>() {
            Ok(reading) => reading,
            Err(reader) => return Err(ListReader {
                reader,
                edition,
                spare,
            }),
        };
        let caught_up = catch_up(&mut spare, reading.get());
        let reader = reading.leave();
        // After the end the list stands, so the edition needs no turn.
        let stands = edition.ended();
        if stands || !caught_up {
            let same = ListReader {
                reader,
                edition,
                spare,
            };
            return if stands { Ok(same) } else { Err(same) };
        }
        Ok(ListReader {
            reader,
            edition: spare,
            spare: edition,
        })
    }

    /// The session after the edits that were seen last.
    pub fn edition(&self) -> &Edition
        ensures { result.now ≡ self.now.edition }
    {
        &self.edition
    }

    /// Is told of the writer's list: what it enters from now on begins with that, and is that where it has the end. Both have to
    /// come from one `lists`, which no clause knows any more once either has entered, published, told or been told.
    pub fn learn<R: Wait>(&mut self, w: &mut Lists<R>)
        requires { self.old.table ≡ w.old.table }
        ensures told { (self.new.told ≡ w.old.edition.edits)
            × (self.new.told_end ≡ w.old.edition.ended) }
        ensures editions { (self.new.edition ≡ self.old.edition)
            × (self.new.spare ≡ self.old.spare) }
        ensures writer { w.new.edition ≡ w.old.edition }
    {
        let note = w.writer.tell::<Note>();
        self.reader.learn::<Hear>(note);
    }

    /// Whether the edition has just the writer's edits, and its end. After workers are joined no clause knows that reader and
    /// writer come from one `lists`: then the reader enters once more, and this compares the two lists.
    pub fn is_at<R: Wait>(&self, lists: &Lists<R>) -> bool
        ensures { IsTrue result
            ↔ IsAt lists.now.edition.edits lists.now.edition.ended self.now.edition }
    {
        self.edition.ended() == lists.edition().ended()
            && same_edits(
                self.edition.edits().as_slice(),
                lists.edition().edits().as_slice(),
            )
    }
}
