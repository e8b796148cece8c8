//! Letters as they are written.
ghost use Rattle.std.specs.Prelude.{◌≡◌, map, IfOk};
ghost use Rattle.run_letters.specs.Events.{letter_of};
ghost use Rattle.run_letters.specs.Letters.{letter_written, letters_in};

use crate::event::Event;
use ses_io::NoMemory;
use std::alloc::Global;

// The event of a letter.
fn event_written(letter: u8) -> Event
    ensures { letter_of result ≡ letter_written letter }
{
    match letter {
        b'c' => Event::Control,
        b'b' => Event::Butler,
        b'e' => Event::Enter,
        b'g' => Event::Gather,
        _ => Event::Cycle,
    }
}

/// The events of a text of `c b e g p`: Control, Butler, Enter, Gather and Cycle.
pub fn stepped(alloc: Global, text: &str) -> Result<Vec<Event>, NoMemory>
    ensures { IfOk result (λ v. map letter_of v.items ≡ letters_in text.now) }
{
    let mut events = Vec::new(alloc);
    for letter in text.as_bytes() {
        events.push(event_written(*letter))?;
    }
    Ok(events)
}
