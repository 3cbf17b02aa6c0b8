//! The files of one folder as answers over HTTP: how they are read, which one a path asks for, and what
//! stands before it.
#![tactic(auto)]

mod file;
mod folder;
mod pages;

pub use file::{File, media_type};
pub use folder::{FolderError, read_folder};
pub use pages::{MOST_BYTES, MOST_FILES, Page};
