//! Writing a file of which nobody sees a part.
use std::fs::{File, OpenFile, OpenOptions, Permissions};
use std::io::{ErrorKind, Write};
use std::rt::Files;
use std::{fs, io};

/// A system whose files are written whole, for threads too.
pub trait WholeFiles {
    /// Writes bytes into a file of this name, as `write_file` does.
    fn write_whole(&self, name: &str, bytes: &[u8]) -> io::Result<()>;
}

impl<R: AllocGlobal + Files> WholeFiles for R {
    fn write_whole(&self, name: &str, bytes: &[u8]) -> io::Result<()> {
        write_file(self, name, bytes)
    }
}

/// How many names are tried for the file beside.
const MOST_NAMES: u32 = 100;

/// Writes bytes into a file. They are written into another file beside it, which then takes its name: a stop in the middle leaves the file as it was, and
/// the one beside it, `FILE.new0` or one with the next number that is free. The file keeps who may read and write it; one that nobody, or this
/// user, may write is refused. What is no file, as a device, is written to as it is.
pub fn write_file<R: AllocGlobal + Files>(rt: &R, name: &str, bytes: &[u8]) -> io::Result<()> {
    let about = match fs::metadata(rt, name) {
        Ok(about) => about,
        Err(error) if error.kind() == ErrorKind::NotFound => {
            return put_in_place(rt, name, bytes, None);
        }
        Err(error) => return Err(error),
    };
    if !about.is_file() {
        return write_through(rt, name, bytes);
    }
    let permissions = about.permissions();
    if permissions.readonly() {
        return Err(io::Error::from(ErrorKind::PermissionDenied));
    }
    may_write(rt, name)?;
    // What a link names is written, and not the link.
    let path = fs::canonicalize(rt, name)?;
    put_in_place(rt, path.as_str(), bytes, Some(permissions))
}

// Writes a file beside, and gives it the name.
fn put_in_place<R: AllocGlobal + Files>(
    rt: &R,
    name: &str,
    bytes: &[u8],
    permissions: Option<Permissions>,
) -> io::Result<()> {
    let (beside, file) = create_beside(rt, name)?;
    let written = match fill(file, bytes, permissions) {
        Ok(()) => fs::rename(rt, beside.as_str(), name),
        Err(error) => Err(error),
    };
    if written.is_err() {
        let _ = fs::remove_file(rt, beside.as_str());
    }
    written
}

// A new file beside, with its name.
fn create_beside<R: AllocGlobal + Files>(rt: &R, name: &str) -> io::Result<(String, R::File)> {
    for number in 0..MOST_NAMES {
        let beside = format!(in rt.alloc(); "{name}.new{number}")?;
        match File::create_new(rt, beside.as_str()) {
            Ok(file) => return Ok((beside, file)),
            Err(error) if error.kind() == ErrorKind::AlreadyExists => {}
            Err(error) => return Err(error),
        }
    }
    Err(io::Error::from(ErrorKind::AlreadyExists))
}

// Writes all of a new file, down to the disk.
fn fill<F: Write + OpenFile + Drop>(
    mut file: F,
    bytes: &[u8],
    permissions: Option<Permissions>,
) -> io::Result<()> {
    if let Some(permissions) = permissions {
        // Where the system knows of no permissions the file has those of a new one.
        let _ = file.set_permissions(permissions);
    }
    file.write_all(bytes)?;
    file.sync_all()
}

// Whether this user may write to a file. Its folder may allow to put another file in its place all the same.
fn may_write<R: Files>(rt: &R, name: &str) -> io::Result<()> {
    let _file = OpenOptions::new().write(true).open(rt, name)?;
    Ok(())
}

// Writes to what has this name.
fn write_through<R: Files>(rt: &R, name: &str, bytes: &[u8]) -> io::Result<()> {
    let mut file = OpenOptions::new().write(true).open(rt, name)?;
    file.write_all(bytes)
}
