//! A file is replaced whole, or stays as it was.
//!
//! The bytes go to a fresh file in the folder of the name, which is synced and then renamed over the
//! name: whatever fails or ends the program, the name has the old file or the new one. A link under
//! the name is replaced, and what it leads to stays. What is neither a plain file nor a link is
//! refused, and so is a plain file that can't be opened for writing. The new file keeps who may use
//! the old one, and whose that is, where the system lets it be given away.
//!
//! A program that is ended in the middle leaves its fresh file, which no later store touches; where
//! a thousand are left in a folder, nothing more is stored there.
//!
//! That the fresh file takes all the bytes, or it is an error, is proved for every writer whose bytes
//! std tells. Of the file system std tells nothing: what an opening, a sync, a rename or a removal
//! does, and whether it failed, no contract says.
ghost use Rattle.std.specs.Prelude.{◌≡◌, ◌≢◌, ◌<◌, ◌++◌, [], None, Err, Ok, bit_and, codes, decimal, length};
ghost use Rattle.std.specs.Prelude.{IfOk, IfSome, IsOkAnd, IsSomeAnd, MatchResult, OnOk};
ghost use Rattle.std.specs.Fs.{IsFile, IsSymlink, file_type, metadata_mode, permissions_mode};
ghost use Rattle.std.specs.Io.KnownBytes.{Appends};
ghost use Rattle.std.specs.IoError.{error_kind};
ghost use Rattle.std.specs.Path.{path_buf_bytes, path_parent, path_with_file_name};

use super::patient::uninterrupted;
use std::alloc::{AllocError, Global};
use std::fs::{File, Metadata, OpenFile, OpenOptions, Permissions};
use std::io::{ErrorKind, Write};
use std::os::fd::AsFd;
use std::os::unix::fs::{MetadataExt, PermissionsExt, fchown};
use std::path::{Path, PathBuf};
use std::rt::Files;
use std::{fs, io};

/// How many names a fresh file is tried under.
const FRESH_NAMES: u32 = 1000;

/// The bits of a mode that say who may read, write and run a file.
const PERMISSION_BITS: u32 = 0o777;

/// What a new file keeps of a plain file.
#[derive(Drop)]
struct Kept {
    permissions: Permissions,
    owner: u32,
    group: u32,
}

/// What a new file keeps of what was found under its name: whose a plain file is and who may use it,
/// and nothing of a link, or where nothing is. The rest is refused.
fn kept_of(found: io::Result<Metadata>) -> io::Result<Option<Kept>>
    ensures { MatchResult found
        (λ attributes.
        (IsFile (file_type attributes) → IsOkAnd result (λ found. IsSomeAnd found (λ kept.
        permissions_mode kept.permissions ≡ bit_and (metadata_mode attributes) 0o777)))
        × (IsSymlink (file_type attributes) → result ≡ Ok None)
        × (¬ IsFile (file_type attributes) → ¬ IsSymlink (file_type attributes)
        → MatchResult result (λ _. ⊥) (λ error. error_kind error ≡ ErrorKind.Other)))
        (λ error.
        (error_kind error ≡ ErrorKind.NotFound → result ≡ Ok None)
        × (error_kind error ≢ ErrorKind.NotFound → result ≡ Err error)) }
{
    match found {
        Ok(attributes) if attributes.is_file() => {
            let mode = attributes.permissions().mode() & PERMISSION_BITS;
            Ok(Some(Kept {
                permissions: Permissions::from_mode(mode),
                owner: attributes.uid(),
                group: attributes.gid(),
            }))
        }
        Ok(attributes) if attributes.is_symlink() => Ok(None),
        Ok(_) => Err(io::Error::other("it is no plain file")),
        Err(error) if error.kind() == ErrorKind::NotFound => Ok(None),
        Err(error) => Err(error),
    }
}

/// What a new file keeps of what stands under its name. A plain file must be open to a writer, so
/// that one which is protected against writing isn't replaced.
fn look<R: Files>(rt: &R, name: &str) -> io::Result<Option<Kept>> {
    let kept = kept_of(uninterrupted(|| fs::symlink_metadata(rt, name)))?;
    if kept.is_some() {
        OpenOptions::new().write(true).open(rt, name)?;
    }
    Ok(kept)
}

/// A name in the same folder, as short as any. No file of a story ends in `.new`.
fn fresh_name(alloc: Global, name: &str, turn: u32) -> Result<PathBuf, AllocError>
    ensures { IfOk result (λ fresh. path_buf_bytes fresh
        ≡ path_with_file_name name.now (codes ".gx_player-" ++ (decimal turn ++ codes ".new"))) }
{
    let last = format!(in alloc; ".gx_player-{turn}.new")?;
    Path::new(name).with_file_name(alloc, last.as_str())
}

/// A fresh file in the folder of a name, and its own name, where nothing stood.
fn create_fresh<R: Files>(rt: &R, alloc: Global, name: &str) -> io::Result<(PathBuf, R::File)> {
    for turn in 0..FRESH_NAMES {
        let fresh = fresh_name(alloc, name, turn)?;
        match OpenOptions::new()
            .write(true)
            .create_new(true)
            .open(rt, &fresh)
        {
            Ok(file) => return Ok((fresh, file)),
            Err(error) if error.kind() == ErrorKind::AlreadyExists => {}
            Err(error) => return Err(error),
        }
    }
    Err(io::Error::other("a thousand stores that were cut off left their files there"))
}

/// Gives a fresh file what it keeps. What it can't be given it has as any new file.
fn keep<F: OpenFile + AsFd>(file: &F, kept: Kept) {
    let _ = uninterrupted(|| fchown(file, None, Some(kept.group)));
    let _ = uninterrupted(|| fchown(file, Some(kept.owner), None));
    let _ = file.set_permissions(kept.permissions);
}

/// Writes all bytes to a fresh file, as far as the disk. Who may use it is settled before it has any.
fn fill<F: Write + OpenFile + AsFd>(
    file: &mut F,
    kept: Option<Kept>,
    bytes: &[u8],
) -> io::Result<()>
    ensures { OnOk result (Appends (F.contents file.old) (F.contents file.new) bytes.now) }
{
    if let Some(kept) = kept {
        keep(file, kept);
    }
    file.write_all(bytes)?;
    file.sync_all()
}

/// The folder of a name, which is the current one where the name has none.
fn folder_of(name: &str) -> &str
    ensures named { IfSome (path_parent name.now) (λ parent. 0 < length parent → result.now ≡ parent) }
    ensures current { IfSome (path_parent name.now) (λ parent. parent ≡ [] → result.now ≡ codes ".") }
{
    match Path::new(name).parent() {
        Some(parent) if !parent.as_str().is_empty() => parent.as_str(),
        _ => ".",
    }
}

/// Brings the new name as far as the disk, where the folder can be synced.
fn sync_folder<R: Files>(rt: &R, name: &str) {
    if let Ok(opened) = fs::open(rt, folder_of(name)) {
        let _ = opened.sync_all();
    }
}

/// Puts a file of these bytes in the place of what stands under the name. What stands there stays,
/// and the fresh file goes, where any of it fails; once the new file has the name, nothing is undone.
pub fn replace_file<R: Files<File = File>>(
    rt: &R,
    alloc: Global,
    name: &str,
    bytes: &[u8],
) -> io::Result<()> {
    let kept = look(rt, name)?;
    let (fresh, mut file) = create_fresh(rt, alloc, name)?;
    let filled = fill(&mut file, kept, bytes);
    drop(file);
    let replaced = filled.and_then(|()| uninterrupted(|| fs::rename(rt, &fresh, name)));
    match replaced {
        Ok(()) => {
            sync_folder(rt, name);
            Ok(())
        }
        Err(error) => {
            let _ = uninterrupted(|| fs::remove_file(rt, &fresh));
            Err(error)
        }
    }
}
