//! The files with the tokens that clients and backends need, and with the keys that the tokens of
//! clients are signed with.

ghost use Rattle.std.specs.Prelude.{◌≡◌, ◌+◌, ◌<◌, ℕ, IfOk, IfSome, OnErr, OnOk, false, is_some, length, nat_lt, option_map, string_bytes};
ghost use Rattle.arguments.specs.Keys.{HasKeys, IsFilled, IsTokenOf, IsVerifier};
ghost use Rattle.arguments.specs.Keys as keys_of;

use crate::wrong::{Wrong, check_need};
use std::alloc::{AllocError, Global};
use std::io::ErrorKind;
use std::rt::Files;
use std::{fmt, fs};
use terms::Text;
use thiserror::Error;
use tokens::{Key, Verifier};

/// Why a file gives no token or no key.
#[derive(Clone, Copy, Debug, Error)]
pub(crate) enum FileError {
    Memory(#[from(alloc)] AllocError),
    NoFile,
    NotUtf8,
    NoToken,
    NoKey,
    SameName,
}

impl fmt::Display for FileError {
    fn fmt<W: fmt::Write>(&self, f: &mut fmt::Formatter<W>) -> fmt::Result {
        f.write_str(match self {
            FileError::Memory(_) => "out of memory",
            FileError::NoFile => "it can't be read",
            FileError::NotUtf8 => "it is not UTF-8",
            FileError::NoToken => "there is no token in it",
            FileError::NoKey => "there is no key in it",
            FileError::SameName => "a key has this name already, by which tokens name it",
        })
    }
}

/// What is told of the file that an option names, unless there was no memory.
fn wrong_file(
    alloc: Global,
    option: &'static str,
    file: &str,
    fault: FileError,
) -> Result<Wrong, AllocError>
    ensures { IfOk result (λ wrong. (name : _) × (string_bytes name ≡ file.now)
        × (wrong ≡ Wrong.File option.entry name fault)) }
{
    match fault {
        FileError::Memory(refused) => Err(refused),
        _ => Ok(Wrong::File(option, String::from_str(alloc, file)?, fault)),
    }
}

/// The token in the file that this option names, if it names one.
pub(crate) fn token_in<R: Files + AllocGlobal>(
    rt: &R,
    option: &'static str,
    file: Option<&str>,
) -> Result<Option<Text>, Wrong>
    ensures { IfOk result (λ token. IsTokenOf (is_some file.entry) token) }
{
    let Some(file) = file else {
        return Ok(None);
    };
    match read_token(rt, file) {
        Ok(token) => Ok(Some(token)),
        Err(fault) => Err(wrong_file(rt.alloc(), option, file, fault)?),
    }
}

/// The token in a file: its text, without the end of its line.
fn read_token<R: Files + AllocGlobal>(rt: &R, path: &str) -> Result<Text, FileError>
    ensures { IfOk result (λ token. 0 < length token) }
{
    let text = fs::read_to_string(rt, path).map_err(|error| match error.kind() {
        ErrorKind::OutOfMemory => FileError::Memory(AllocError),
        ErrorKind::InvalidData => FileError::NotUtf8,
        _ => FileError::NoFile,
    })?;
    let line = text.as_str().strip_suffix('\n').unwrap_or(text.as_str());
    let token = line.strip_suffix('\r').unwrap_or(line);
    if token.is_empty() {
        return Err(FileError::NoToken);
    }
    Ok(Text::copy_of(rt.alloc(), token)?)
}

/// What tokens are verified by, where there are files with keys; without one nobody can be named for
/// whom they are made.
pub(crate) fn read_verifier<R: Files + AllocGlobal>(
    rt: &R,
    files: &[&str],
    audience: Option<&str>,
) -> Result<Option<Verifier>, Wrong>
    ensures some { IfOk result (λ verifier. is_some verifier ≡ nat_lt 0 (length files.now)) }
    ensures keys { IfOk result (λ verifier. IfSome verifier (IsVerifier (length files.now)
        (option_map (λ name. name.now) audience.entry))) }
    ensures alone { IfOk result (λ verifier. is_some verifier ≡ false
        → is_some audience.entry ≡ false) }
{
    check_need(audience.is_some(), !files.is_empty(), Wrong::AudienceAlone)?;
    if files.is_empty() {
        return Ok(None);
    }
    let keys = read_keys(rt, files)?;
    let audience = match audience {
        Some(name) => Some(Text::copy_of(rt.alloc(), name)?),
        None => None,
    };
    Ok(Some(Verifier { keys, audience }))
}

/// The keys in the files, in their order.
fn read_keys<R: Files + AllocGlobal>(rt: &R, files: &[&str]) -> Result<Vec<Key>, Wrong>
    ensures { IfOk result (λ keys. HasKeys (length files.now) keys.items) }
{
    let mut keys = Vec::new(rt.alloc());
    for file in files {
        if let Err(fault) = add_key(rt, &mut keys, file) {
            return Err(wrong_file(rt.alloc(), "jwt-key", file, fault)?);
        }
    }
    Ok(keys)
}

/// Adds the key in a file, with the file's name, unless one has it.
fn add_key<R: Files + AllocGlobal>(rt: &R, keys: &mut Vec<Key>, file: &str) -> Result<(), FileError>
    ensures added { OnOk result ((n : ℕ) → HasKeys n keys.old.items
        → HasKeys (n + 1) keys.new.items) }
    ensures refused { OnErr result (keys.new.items ≡ keys.old.items) }
{
    let name = name_of(file);
    if is_known(keys, name) {
        return Err(FileError::SameName);
    }
    keys.push(read_key(rt, name, file)?)?;
    Ok(())
}

/// The key in a file: its bytes, of which there is one.
fn read_key<R: Files + AllocGlobal>(rt: &R, name: &str, file: &str) -> Result<Key, FileError>
    ensures { IfOk result (λ key. (key.name ≡ name.now) × IsFilled key) }
{
    let secret = fs::read(rt, file).map_err(|error| match error.kind() {
        ErrorKind::OutOfMemory => FileError::Memory(AllocError),
        _ => FileError::NoFile,
    })?;
    if secret.is_empty() {
        return Err(FileError::NoKey);
    }
    let name = Text::copy_of(rt.alloc(), name)?;
    Ok(Key { name, secret })
}

/// Whether a key has this name.
fn is_known(keys: &[Key], name: &str) -> bool
    ensures { result ≡ keys_of.is_known name.now keys.now }
{
    keys.iter().any(|key| key.name.as_str() == name)
}

/// The name of a file without its folders and its ending.
fn name_of(path: &str) -> &str {
    let file = match path.rsplit_once('/') {
        Some((_, file)) => file,
        None => path,
    };
    match file.rsplit_once('.') {
        Some((name, _)) if !name.is_empty() => name,
        _ => file,
    }
}
