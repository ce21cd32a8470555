ghost use Rattle.std.specs.Prelude.{◌≡◌, ◌≢◌};
ghost use Rattle.ub_file.specs.Host.{opened_by, AsksInPlace};

use crate::lock::{Held, Lock, take};
use std::fs::{Metadata, OpenFile, OpenOptions};
use std::io::{self, Eprint};
use std::os::fd::AsRawFd;
use std::os::unix::fs::MetadataExt;
use std::path::PathBuf;
use std::{fs, rt};
use ub_file::Opened;

/// What a table file is opened for.
#[derive(Clone, Copy, PartialEq, Eq)]
pub enum Purpose {
    /// To be read alone.
    Ask,
    /// To be read, and then changed.
    Change,
    /// To be made anew: it is there afterwards in any case.
    Make,
}

impl Purpose {
    // How the file is locked for it.
    fn held(self) -> Held {
        match self {
            Purpose::Ask => Held::Shared,
            Purpose::Change | Purpose::Make => Held::Alone,
        }
    }
}

/// A table file that is open, and locked until it is closed.
#[derive(Drop)]
pub struct TableFile<F> {
    pub file: F,
    /// What the system tells of it, now that it is locked.
    pub told: Metadata,
    /// Where it is, with no link in place of its name. None of a device or a pipe: these have nothing beside them.
    pub real: Option<PathBuf>,
    /// Whether no other program has it open.
    pub is_alone: bool,
}

// How often a file is opened anew where another one got its name while a lock was waited for.
const TRIES: u32 = 100;

// What the system says of a folder, and of a device that is to be a table file.
const IS_FOLDER: i32 = 21;

const NO_FILE: i32 = 22;

/// Opens a table file and locks it. It isn't emptied, and it is made only where that is the purpose. The system's reason comes where
/// it refuses that, or where the path is a folder's, or, but to ask, a device's. After a lock was waited for the file may have
/// another name: then the one that has the name now is opened.
pub fn open_locked<R: rt::Files + AllocGlobal + Eprint>(
    rt: &R,
    path: &str,
    purpose: Purpose,
) -> io::Result<TableFile<R::File>>
where
    R::File: AsRawFd + Lock,
{
    for _ in 0..TRIES {
        let file = open_as_allowed(rt, path, purpose)?;
        let told = file.metadata()?;
        if !told.is_file() {
            return open_device(file, told, purpose);
        }
        take(rt, &file, purpose.held(), path)?;
        if let Some(real) = name_of(rt, &told, path)? {
            let told = file.metadata()?;
            return Ok(TableFile {
                file,
                told,
                real: Some(real),
                is_alone: purpose.held() == Held::Alone,
            });
        }
    }
    Err(io::Error::other("other files get its name all the time"))
}

// A device or a pipe, which can be asked.
fn open_device<F: Drop>(file: F, told: Metadata, purpose: Purpose) -> io::Result<TableFile<F>> {
    if told.is_dir() {
        return Err(io::Error::from_raw_os_error(IS_FOLDER));
    }
    if purpose != Purpose::Ask {
        return Err(io::Error::from_raw_os_error(NO_FILE));
    }
    Ok(TableFile {
        file,
        told,
        real: None,
        is_alone: false,
    })
}

// Opens a file for reading and writing, or, to ask it, for reading alone where that is refused.
fn open_as_allowed<R: rt::Files>(rt: &R, path: &str, purpose: Purpose) -> io::Result<R::File>
where
    R::File: AsRawFd,
{
    let why = match open_in(rt, &way(purpose, true), path, purpose) {
        Ok(file) => return Ok(file),
        Err(why) => why,
    };
    if purpose != Purpose::Ask {
        return Err(why);
    }
    open_in(rt, &way(purpose, false), path, purpose).map_err(|_| why)
}

// Opens a file in this way. It gets none of the numbers of the standard streams, also where these were closed: what is meant for them
// must not be written to it.
fn open_in<R: rt::Files>(
    rt: &R,
    how: &OpenOptions,
    path: &str,
    purpose: Purpose,
) -> io::Result<R::File>
where
    R::File: AsRawFd,
    requires kept { AsksInPlace how.now }
    requires found { purpose ≢ Purpose.Make → opened_by how.now ≡ Opened.Found }
{
    let file = how.open(rt, path)?;
    if file.as_raw_fd() > 2 {
        return Ok(file);
    }
    file.try_clone()
}

// The way to open a file for this purpose, with its bytes left where they are.
fn way(purpose: Purpose, writing: bool) -> OpenOptions
    ensures kept { AsksInPlace result }
    ensures found { purpose ≢ Purpose.Make → opened_by result ≡ Opened.Found }
{
    let mut how = OpenOptions::new();
    how.read(true);
    how.write(writing);
    how.create(matches!(purpose, Purpose::Make));
    how
}

// The path of a file that is open with no link in place of its name, where the file still has it.
fn name_of<R: rt::Files + AllocGlobal>(
    rt: &R,
    opened: &Metadata,
    path: &str,
) -> io::Result<Option<PathBuf>> {
    match look_up(rt, path) {
        Ok((real, named)) => {
            let is_named = named.dev() == opened.dev() && named.ino() == opened.ino();
            Ok(is_named.then_some(real))
        }
        Err(why) if why.kind() == io::ErrorKind::NotFound => Ok(None),
        Err(why) => Err(why),
    }
}

// The same of the file that has the name now, and what the system tells of it.
fn look_up<R: rt::Files + AllocGlobal>(rt: &R, path: &str) -> io::Result<(PathBuf, Metadata)> {
    let real = real_path(rt, path)?;
    let named = rt.metadata(real.as_str())?;
    Ok((real, named))
}

// A path that is no link: the one that is given, or what it leads to.
fn real_path<R: rt::Files + AllocGlobal>(rt: &R, path: &str) -> io::Result<PathBuf> {
    if rt.symlink_metadata(path)?.is_symlink() {
        fs::canonicalize(rt, path)
    } else {
        Ok(PathBuf::from_str(rt.alloc(), path)?)
    }
}
