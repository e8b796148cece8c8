//! No two sources have one name.
ghost use Rattle.std.specs.Prelude.{◌≡◌};
ghost use Rattle.session_toml.specs.Rules as spec;

use super::alike::first_twice;
use session_model::{SessionRefusal, SourceDecl};

/// Refuses the first source whose name stood before.
pub(crate) fn sources_once(sources: &[SourceDecl]) -> Result<(), SessionRefusal>
    ensures { result ≡ spec.sources_once sources.now }
{
    match first_twice(sources) {
        Some(source) => Err(SessionRefusal::Twice(source.name)),
        None => Ok(()),
    }
}
