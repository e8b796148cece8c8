//! The name of a source's file: 1 to 255 bytes, without `/` and zero bytes, neither `.` nor `..`.
ghost use Rattle.std.specs.Prelude.{◌≡◌, ◌↔◌, IsTrue, IfOk, Err};
ghost use Rattle.std.specs.List.{list_all};
ghost use Rattle.std.specs.Bool.{IsFalse};
ghost use Rattle.session_model.specs.FileName.{is_file_name, is_file_byte};

use std::alloc::Global;
use std::marker::Model;
use thiserror::Error;

/// A name in the folder of the session (own). Contracts see its bytes.
#[derive(Debug, Drop)]
pub struct FileName {
    text: String,
}

/// Why a text makes no file name.
#[derive(Clone, Copy, Debug, PartialEq, Eq, Error)]
pub enum FileNameRefusal {
    /// The text breaks the rule.
    #[error("a file name is 1 to 255 bytes without / and zero bytes, and neither . nor ..")]
    NotFile,
    /// Memory ran out.
    #[error("out of memory")]
    NoMemory,
}

impl Model for FileName {
    ghost use Rattle.std.specs.Prelude.{List, ℕ, IsTrue, string_bytes};
    ghost use Rattle.session_model.specs.FileName.{is_file_name};

    ghost Value = { List ℕ };

    ghost view = { λ f. string_bytes f.text };

    ghost invariant = { λ f. IsTrue (is_file_name (string_bytes f.text)) };
}

fn is_file_byte(b: u8) -> bool
    ensures { result ≡ is_file_byte b }
{
    !(b == 0 || b == b'/')
}

fn are_file_bytes(bytes: &[u8]) -> bool
    ensures { result ≡ list_all is_file_byte bytes.now }
{
    bytes.iter().all(|b| is_file_byte(*b))
}

/// Whether the bytes keep the rule of a file's name.
pub fn is_file_name(bytes: &[u8]) -> bool
    ensures { result ≡ is_file_name bytes.now }
{
    if bytes.is_empty() || bytes.len() > 255 || !are_file_bytes(bytes) {
        return false;
    }
    bytes != b".".as_slice() && bytes != b"..".as_slice()
}

impl FileName {
    /// The file name that a text is.
    pub fn new(alloc: Global, text: &str) -> Result<FileName, FileNameRefusal>
        ensures bytes { IfOk result (λ name. name ≡ text.now) }
        ensures refused { (result ≡ Err FileNameRefusal.NotFile) ↔ IsFalse (is_file_name text.now) }
    {
        if !is_file_name(text.as_bytes()) {
            return Err(FileNameRefusal::NotFile);
        }
        match String::from_str(alloc, text) {
            Ok(text) => Ok(FileName { text }),
            Err(_) => Err(FileNameRefusal::NoMemory),
        }
    }

    /// The text of the name.
    pub fn as_str(&self) -> &str
        ensures bytes { result.now ≡ self.now }
        ensures rule { IsTrue (is_file_name self.now) }
    {
        self.text.as_str()
    }
}
