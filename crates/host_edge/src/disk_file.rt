//! A file of the file system, set as a whole.

use crate::stream::write_whole;
use std::fs;
use std::fs::{OpenFile, OpenOptions, Permissions};
use std::io::ErrorKind;
use std::os::unix::fs::PermissionsExt;
use std::path::Path;

/// How many names beside a file are tried.
const NAMES: u32 = 16;

/// What the name of a new file begins with where that of the file that it replaces is too long.
const SHORT: &str = ".simdram";

/// What came of a file that was written beside another.
enum Beside {
    /// It stands in the other's place.
    Moved,
    /// It could not be written, and is gone.
    Failed,
    /// Its name is too long.
    TooLong,
    /// No file may be made in this folder.
    NotAllowed,
}

/// Sets the file to the bytes, and says whether it did. They are written beside the file, which
/// they then replace with its mode, so that a crash or a full disk leaves the old file or the new
/// one. Of a link the link's file is replaced. What is no regular file is written in place.
pub(crate) fn set_file(rt: &HostRuntime, name: &str, bytes: &[u8]) -> bool {
    match fs::symlink_metadata(rt, name) {
        Ok(found) if found.is_symlink() => set_through(rt, name, bytes),
        _ => set_plain(rt, name, bytes),
    }
}

/// Sets the file that a link leads to. Where there is none yet, it is made in place.
fn set_through(rt: &HostRuntime, link: &str, bytes: &[u8]) -> bool {
    match fs::canonicalize(rt, link) {
        Ok(place) => set_plain(rt, place.as_str(), bytes),
        Err(e) if e.kind() == ErrorKind::NotFound => write_in_place(rt, link, bytes),
        Err(_) => false,
    }
}

/// Sets a file that is no link.
fn set_plain(rt: &HostRuntime, name: &str, bytes: &[u8]) -> bool {
    match fs::symlink_metadata(rt, name) {
        Ok(found) if found.is_file() => {
            let may_write = OpenOptions::new().write(true).open(rt, name).is_ok();
            may_write && replace(rt, name, Some(found.permissions().mode()), bytes)
        }
        Err(e) if e.kind() == ErrorKind::NotFound => replace(rt, name, None, bytes),
        _ => write_in_place(rt, name, bytes),
    }
}

/// Replaces a file, or makes it. Where no file may be made in its folder, it is written in place.
fn replace(rt: &HostRuntime, name: &str, mode: Option<u32>, bytes: &[u8]) -> bool {
    let found = match put_beside(rt, name, name, mode, bytes) {
        Beside::TooLong => put_by_short_name(rt, name, mode, bytes),
        found => found,
    };
    match found {
        Beside::Moved => true,
        Beside::NotAllowed => write_in_place(rt, name, bytes),
        Beside::Failed | Beside::TooLong => false,
    }
}

/// The same by a short name, of which a folder has one for all its files.
fn put_by_short_name(rt: &HostRuntime, name: &str, mode: Option<u32>, bytes: &[u8]) -> Beside {
    match Path::new(name).with_file_name(rt.alloc(), SHORT) {
        Ok(short) => put_beside(rt, short.as_str(), name, mode, bytes),
        Err(_) => Beside::Failed,
    }
}

fn write_in_place(rt: &HostRuntime, name: &str, bytes: &[u8]) -> bool {
    match fs::create(rt, name) {
        Ok(mut file) => write_whole(&mut file, bytes),
        Err(_) => false,
    }
}

/// Writes the bytes into a new file whose name begins so, and gives it the place of a file.
fn put_beside(
    rt: &HostRuntime,
    start: &str,
    name: &str,
    mode: Option<u32>,
    bytes: &[u8],
) -> Beside {
    for number in 0..NAMES {
        let Ok(beside) = format!(in rt.alloc(); "{start}.new{number}") else {
            return Beside::Failed;
        };
        match fs::File::create_new(rt, &beside) {
            Ok(mut file) => {
                let kept = mode.is_none_or(|mode| {
                    let permissions = Permissions::from_mode(mode);
                    file.set_permissions(permissions).is_ok()
                });
                let moved = kept
                    && write_whole(&mut file, bytes)
                    && fs::rename(rt, &beside, name).is_ok();
                if moved {
                    return Beside::Moved;
                }
                let _ = fs::remove_file(rt, &beside);
                return Beside::Failed;
            }
            Err(e) => match e.kind() {
                ErrorKind::AlreadyExists => {}
                ErrorKind::InvalidFilename => return Beside::TooLong,
                ErrorKind::PermissionDenied => return Beside::NotAllowed,
                _ => return Beside::Failed,
            },
        }
    }
    Beside::Failed
}
