//! The one source, `g`.
ghost use Rattle.std.specs.Prelude.{◌≡◌, [], ◌∷◌, codes, IfOk};
ghost use Rattle.made_session.specs.Each.{listed};
ghost use Rattle.made_session.specs.Made as spec;

use ses_io::NoMemory;
use ses_units::Name;
use ses_units::limits::SOURCES;
use session_model::{FileName, FileNameRefusal, SourceDecl, SourceList};
use std::alloc::Global;

fn source_name() -> Name
    ensures { result ≡ codes "g" }
{
    match Name::new("g") {
        Ok(name) => name,
        Err(_) => unreachable!(),
    }
}

fn source_file(alloc: Global) -> Result<FileName, NoMemory>
    ensures { IfOk result (λ file. file ≡ codes "g.wav") }
{
    match FileName::new(alloc, "g.wav") {
        Ok(file) => Ok(file),
        Err(FileNameRefusal::NoMemory) => Err(NoMemory),
        Err(FileNameRefusal::NotFile) => unreachable!(),
    }
}

/// The sources of a session that is made from a number.
pub(crate) fn source_list(alloc: Global) -> Result<SourceList, NoMemory>
    ensures { IfOk result (λ l. l ≡ listed 64 (spec.source ∷ [])) }
{
    let file = source_file(alloc)?;
    let mut list = SourceList::new(alloc, SOURCES)?;
    list.push(SourceDecl {
        name: source_name(),
        file,
        channels: 1,
    });
    Ok(list)
}
