//! What control hears is true.
ghost use Rattle.lead_worker.specs.Heard.{HeardIsTrue};

/// Replies that are true of the acknowledgements that control took are true of all that were sent to it, and of the journal, where
/// each says what its entry has settled, and where a ring that answered Closed has given all.
pub fn heard_is_true()
    ensures { HeardIsTrue }
{}
