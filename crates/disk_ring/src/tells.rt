//! How the two ends of a ring tell each other what they know, by notes.
ghost use Rattle.std.specs.Prelude.{◌≡◌, ◌+◌, ◌^◌, ◌≤◌, true, length};
ghost use mathlib.Core.List.{IsPrefix};
ghost use Rattle.disk_ring.specs.Places.{IsSameSeat, IsProducer, IsConsumer};

use crate::plays::{Hear, HearList, NoteHeard, NoteIn, NoteOut, RecallIn, RecallOut};
use crate::ring_table::{HEAD, Place, RingTable, TAIL};
use crate::roomy::Roomy;

/// The producer hears what the consumer had been told.
pub(crate) fn tell_heard<T: Roomy>(
    ring_table: &RingTable<T>,
    producer: &mut Place<T>,
    consumer: &mut Place<T>,
)
    requires producer { IsProducer ring_table.now.shared.table_id producer.old }
    requires consumer { IsConsumer ring_table.now.shared.table_id consumer.old }
    ensures same { IsSameSeat producer.old producer.new × IsSameSeat consumer.old consumer.new }
    ensures told { producer.new.me ≡ (
      record producer.old.me.0
          { heard = consumer.old.me.0.heard; over = consumer.old.me.0.over },
      producer.old.me.1,
    ) }
    ensures kept { consumer.new.me ≡ consumer.old.me }
    ensures heard { IsPrefix consumer.old.me.0.heard producer.old.me.0.sent }
    ensures over { consumer.old.me.0.over ≡ true → (producer.old.me.0.closed ≡ true)
        × (consumer.old.me.0.heard ≡ producer.old.me.0.sent) }
{
    let note = ring_table.shared.split_seat::<NoteHeard>(consumer);
    ring_table.shared.join_seat::<HearList>(producer, note);
    ring_table.shared.load::<RecallIn>(producer, HEAD);
}

/// The consumer hears what was sent.
pub(crate) fn tell_consumer<T: Roomy>(
    ring_table: &RingTable<T>,
    consumer: &mut Place<T>,
    producer: &mut Place<T>,
)
    requires producer { IsProducer ring_table.now.shared.table_id producer.old }
    requires consumer { IsConsumer ring_table.now.shared.table_id consumer.old }
    ensures same { IsSameSeat producer.old producer.new × IsSameSeat consumer.old consumer.new }
    ensures told { consumer.new.me ≡ (
      record consumer.old.me.0 {
        heard = producer.old.me.0.sent;
        over = producer.old.me.0.closed;
        got = producer.old.me.0.got;
      },
      consumer.old.me.1,
    ) }
    ensures kept { producer.new.me ≡ producer.old.me }
    ensures within { length producer.old.me.0.sent
        ≤ length consumer.old.me.0.received + ring_table.now.shared.table_id.slots }
    ensures got { producer.old.me.0.got ≤ length consumer.old.me.0.received }
{
    let note = ring_table.shared.split_seat::<NoteIn>(producer);
    ring_table.shared.join_seat::<Hear>(consumer, note);
    ring_table.shared.load::<RecallOut>(consumer, TAIL);
}

/// The producer hears what was received.
pub(crate) fn tell_producer<T: Roomy>(
    ring_table: &RingTable<T>,
    producer: &mut Place<T>,
    consumer: &mut Place<T>,
)
    requires producer { IsProducer ring_table.now.shared.table_id producer.old }
    requires consumer { IsConsumer ring_table.now.shared.table_id consumer.old }
    ensures same { IsSameSeat producer.old producer.new × IsSameSeat consumer.old consumer.new }
    ensures told { producer.new.me ≡ (
      record producer.old.me.0 {
        heard = consumer.old.me.0.received;
        over = consumer.old.me.0.ended;
        got = length consumer.old.me.0.received;
      },
      producer.old.me.1,
    ) }
    ensures kept { consumer.new.me ≡ consumer.old.me }
    ensures begins { IsPrefix consumer.old.me.0.received producer.old.me.0.sent }
    ensures all { consumer.old.me.0.ended ≡ true → (producer.old.me.0.closed ≡ true)
        × (consumer.old.me.0.received ≡ producer.old.me.0.sent) }
    ensures small { length producer.old.me.0.sent ≤ 2 ^ 62 }
{
    let note = ring_table.shared.split_seat::<NoteOut>(consumer);
    ring_table.shared.join_seat::<Hear>(producer, note);
    ring_table.shared.load::<RecallIn>(producer, HEAD);
}
