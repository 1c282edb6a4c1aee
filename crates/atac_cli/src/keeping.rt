//! A file put in another's place, so that a crash leaves the old one or the new one.

ghost use Rattle.std.specs.Prelude.{◌≡◌, IfOk, OnOk};
ghost use Rattle.std.specs.Io.KnownBytes.{Appends};
ghost use Rattle.std.specs.String.{string_bytes};
ghost use Rattle.atac_cli.specs.Keeping.{beside};

use std::alloc::{AllocError, Global};
use std::fs::{File, OpenFile, OpenOptions, Permissions};
use std::io::{ErrorKind, Write};
use std::path::Path;
use std::rt::Files;
use std::{fs, io};

/// How many names beside a name are tried.
const TRIES: u32 = 1000;

/// A name in the folder of this one: the name with an ending, or the ending alone where the last part is long already.
fn beside(alloc: Global, name: &str, number: u32) -> Result<String, AllocError>
    ensures { IfOk result (λ other. string_bytes other ≡ beside name.now number) }
{
    let path = Path::new(name);
    match path.file_name() {
        Some(last) if last.len() > 240 => {
            let ending = format!(in alloc; ".atac-{number}")?;
            let other = path.with_file_name(alloc, ending.as_str())?;
            String::from_str(alloc, other.as_str())
        }
        _ => format!(in alloc; "{name}.atac-{number}"),
    }
}

/// Makes a file beside this name, under a name that nothing has.
fn create_beside<R: Files + AllocGlobal>(rt: &R, name: &str) -> io::Result<(String, R::File)> {
    for number in 0..TRIES {
        let other = beside(rt.alloc(), name, number)?;
        match File::create_new(rt, other.as_str()) {
            Ok(file) => return Ok((other, file)),
            Err(error) => {
                if error.kind() != ErrorKind::AlreadyExists {
                    return Err(error);
                }
            }
        }
    }
    Err(io::Error::from(ErrorKind::AlreadyExists))
}

/// Gives a new file its permissions, where they are known, and its bytes, and waits until they are on the disk.
fn fill<F: Write + OpenFile>(
    file: &mut F,
    permissions: Option<Permissions>,
    bytes: &[u8],
) -> io::Result<()>
    ensures { OnOk result (Appends (F.contents file.old) (F.contents file.new) bytes.now) }
{
    if let Some(permissions) = permissions {
        file.set_permissions(permissions)?;
    }
    file.write_all(bytes)?;
    file.flush()?;
    file.sync_all()
}

/// Waits until the folder of a name is on the disk, where the folder can be read and synced.
fn sync_folder<R: Files>(rt: &R, name: &str) {
    let folder = match Path::new(name).parent() {
        Some(folder) if !folder.as_str().is_empty() => folder.as_str(),
        _ => ".",
    };
    if let Ok(file) = fs::open(rt, folder) {
        let _ = file.sync_all();
    }
}

/// Puts a new file with these bytes under the name, in the place of the file that has it. On an error the new file is
/// gone again.
fn put_new<R: Files + AllocGlobal>(
    rt: &R,
    name: &str,
    permissions: Option<Permissions>,
    bytes: &[u8],
) -> io::Result<()> {
    let (other, mut file) = create_beside(rt, name)?;
    let done = match fill(&mut file, permissions, bytes) {
        Ok(()) => fs::rename(rt, other.as_str(), name),
        Err(error) => Err(error),
    };
    match done {
        Ok(()) => {
            sync_folder(rt, name);
            Ok(())
        }
        Err(error) => {
            let _ = fs::remove_file(rt, other.as_str());
            Err(error)
        }
    }
}

/// Puts the bytes under the name. What stands there has to be open to writing. A file is replaced by a new one with its
/// permissions, also behind a link; a device or a pipe takes the bytes itself.
pub fn replace<R: Files + AllocGlobal>(rt: &R, name: &str, bytes: &[u8]) -> io::Result<()> {
    let mut old = match OpenOptions::new().write(true).open(rt, name) {
        Ok(old) => old,
        Err(error) => {
            return match error.kind() {
                ErrorKind::NotFound => put_new(rt, name, None, bytes),
                _ => Err(error),
            };
        }
    };
    let known = old.metadata()?;
    if !known.is_file() {
        old.write_all(bytes)?;
        return old.flush();
    }
    let permissions = Some(known.permissions());
    if !fs::symlink_metadata(rt, name)?.is_symlink() {
        return put_new(rt, name, permissions, bytes);
    }
    let real = fs::canonicalize(rt, name)?;
    put_new(rt, real.as_str(), permissions, bytes)
}
