//! The files of a made session: its text, and the file of its source.
ghost use Rattle.std.specs.Prelude.{◌≡◌, ◌≤◌, Ok, IfOk};
ghost use Rattle.ses_io.specs.Stored.{files_in};
ghost use Rattle.session_toml.specs.Session.{session};
ghost use Rattle.made_session.specs.Made as spec;
ghost use Rattle.session_gen.specs.Files.{HasMade};

use crate::laws::made_sessions_stay;
use made_session::{made_session, tone};
use ses_io::{MemMedia, NoMemory};
use session_text::text_of_session;
use std::alloc::Global;

/// The name of the session's file.
pub(crate) const SESSION: &str = "gen.toml";

// The text of the session of the number n.
fn text_of(alloc: Global, n: u32) -> Result<Vec<u8>, NoMemory>
    requires { n ≤ 8191 }
    ensures { IfOk result (λ text. session text.items ≡ Ok (spec.made_session n)) }
{
    made_sessions_stay();
    let session = made_session(alloc, n)?;
    text_of_session(alloc, &session)
}

/// A media that holds the text and the source of the session of the number n.
pub(crate) fn files_of(alloc: Global, n: u32) -> Result<MemMedia, NoMemory>
    requires { n ≤ 8191 }
    ensures { IfOk result (λ media. HasMade n (files_in media.files)) }
{
    let text = text_of(alloc, n)?;
    let tone = tone(alloc)?;
    let mut media = MemMedia::new(alloc);
    media.put(SESSION, text)?;
    media.put("g.wav", tone)?;
    Ok(media)
}
