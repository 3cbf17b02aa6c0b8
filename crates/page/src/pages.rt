//! The files of one folder, by their names.

ghost use Rattle.std.specs.Prelude.{◌≡◌, ◌⊎◌, ◌-◌, ◌≤◌, ◌++◌, ◌∷◌, [], length, IfErr, OnOk, OnErr, None, Some, option_copied};
ghost use Rattle.page.specs.Pages as pages;
ghost use Rattle.page.specs.Pages.{Files, file_for, refusal, size_of};
ghost use Rattle.page.specs.Folders.{IsMemory};

use crate::file::File;
use crate::folder::FolderError;
use std::alloc::{AllocError, Global};
use std::marker::Model;

/// The most files of a page.
pub const MOST_FILES: usize = 1_000;

/// The most bytes that the files of a page may have together.
pub const MOST_BYTES: usize = 16_777_216;

/// The file that the path `/` asks for.
const INDEX: &str = "index.html";

/// The files of a page. In a contract it is their list.
#[derive(Drop)]
pub struct Page {
    files: Vec<File>,
    size: usize,
}

impl Model for Page {
    ghost Value = { Files };

    ghost view = { λ p. p.files.items };

    ghost invariant = { λ p. (p.size ≡ size_of p.files.items)
        × (p.size ≤ 16777216) × (length p.files.items ≤ 1000) };
}

impl Page {
    /// A page without files. It takes no memory.
    pub fn new(alloc: Global) -> Page
        ensures { result ≡ [] }
    {
        Page {
            files: Vec::new(alloc),
            size: 0,
        }
    }

    /// How many bytes its files have together.
    pub fn size(&self) -> usize
        ensures size { result ≡ size_of self.now }
        ensures bytes { result ≤ MOST_BYTES }
        ensures files { length self.now ≤ MOST_FILES }
    {
        self.size
    }

    /// Adds a file, unless there are too many, or they would have too many bytes.
    pub fn add(&mut self, file: File) -> Result<(), FolderError>
        ensures added { OnOk result (self.new ≡ self.old ++ file ∷ []) }
        ensures allowed { OnOk result (refusal self.old file ≡ None) }
        ensures unchanged { OnErr result (self.new ≡ self.old) }
        ensures refused { IfErr result (λ e. IsMemory e ⊎ (refusal self.old file ≡ Some e)) }
    {
        if self.files.len() >= MOST_FILES {
            return Err(FolderError::TooMany);
        }
        let length = file.bytes.as_slice().len();
        if length > MOST_BYTES - self.size {
            return Err(FolderError::TooLarge);
        }
        let pushed = self.files.push(file);
        pushed.map_err(|_| FolderError::Memory(AllocError))?;
        self.size += length;
        Ok(())
    }

    /// The file that a path asks for, which is the part of a request's target before its query (RFC
    /// 9112, section 3.2.1). Nothing is decoded.
    pub fn look_up(&self, path: &str) -> Option<&File>
        ensures { option_copied result ≡ file_for path.now self.now }
    {
        match path.as_bytes() {
            b"/" => file_named(&self.files, INDEX.as_bytes()),
            [b'/', name @ ..] => file_named(&self.files, name),
            _ => None,
        }
    }
}

/// The first file with this name.
fn file_named<'f>(files: &'f [File], name: &[u8]) -> Option<&'f File>
    ensures { option_copied result ≡ pages.file_named name.now files.now }
{
    files
        .iter()
        .find(|file| file.name.as_str().as_bytes() == name)
}
