//! Reading the files of a folder.

ghost use Rattle.std.specs.Prelude.{◌≡◌, ◌++◌, ◌∷◌, [], None, IfSome, OnOk, OnErr};
ghost use Rattle.page.specs.Pages.{file_of, refusal};

use crate::file::File;
use crate::pages::{MOST_BYTES, MOST_FILES, Page};
use std::alloc::{AllocError, Global};
use std::io::{ErrorKind, Read};
use std::rt::Files;
use std::{fs, io};
use terms::{Bytes, Text};
use thiserror::Error;

/// Why a folder can't be served.
#[derive(Debug, Drop, Error)]
pub enum FolderError {
    /// An allocation was refused.
    #[error("out of memory")]
    Memory(#[from(alloc)] AllocError),
    /// The folder, or a file of it.
    #[error("{0} can't be read")]
    Unreadable(String),
    #[error("the name of a file in it is not UTF-8")]
    BadName,
    #[error("it has more than {MOST_FILES} files")]
    TooMany,
    #[error("its files have more than {MOST_BYTES} bytes together")]
    TooLarge,
}

/// What a failed call on this path of a folder comes to.
fn fault_at(alloc: Global, path: &str, error: &io::Error) -> FolderError {
    match error.kind() {
        ErrorKind::OutOfMemory => FolderError::Memory(AllocError),
        // The one fault of a name.
        ErrorKind::InvalidFilename => FolderError::BadName,
        _ => String::from_str(alloc, path).map_or_else(
            FolderError::Memory,
            FolderError::Unreadable,
        ),
    }
}

/// The files of a folder. What else is in it, as other folders, is left out.
pub fn read_folder<R: Files + AllocGlobal + Clone + Drop>(
    rt: &R,
    folder: &str,
) -> Result<Page, FolderError> {
    let alloc = rt.alloc();
    let mut page = Page::new(alloc);
    let entries = fs::read_dir(rt, folder).map_err(|error| fault_at(alloc, folder, &error))?;
    for entry in entries {
        let entry = entry.map_err(|error| fault_at(alloc, folder, &error))?;
        let path = entry.path();
        let about = fs::metadata(rt, path);
        let about = about.map_err(|error| fault_at(alloc, path.as_str(), &error))?;
        if about.is_file() {
            let file = fs::open(rt, path);
            let file = file.map_err(|error| fault_at(alloc, path.as_str(), &error))?;
            let name = Text::copy_of(alloc, entry.file_name())?;
            add_whole(alloc, &mut page, path.as_str(), name, file)?;
        }
    }
    Ok(page)
}

/// Adds the file of this name that has all that the reader gives. Of one that is too large just one
/// byte more than there is space for is read.
fn add_whole<R: Read + Drop>(
    alloc: Global,
    page: &mut Page,
    path: &str,
    name: Text,
    reader: R,
) -> Result<(), FolderError>
    ensures whole { OnOk result (IfSome (R.remaining reader)
        (λ all. page.new ≡ page.old ++ file_of name all ∷ [])) }
    ensures allowed { OnOk result (IfSome (R.remaining reader)
        (λ all. refusal page.old (file_of name all) ≡ None)) }
    ensures unchanged { OnErr result (page.new ≡ page.old) }
{
    let most = (MOST_BYTES - page.size() + 1) as u64;
    let mut bytes = Vec::new(alloc);
    let mut reader = reader.take(most);
    reader
        .read_to_end(&mut bytes)
        .map_err(|error| fault_at(alloc, path, &error))?;
    let bytes = Bytes::from_vec(bytes);
    page.add(File { name, bytes })?;
    Ok(())
}
