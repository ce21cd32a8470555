use std::fs::{File, TryLockError};
use std::io;
use std::io::Eprint;

/// How a lock is held.
#[derive(Clone, Copy, PartialEq, Eq)]
pub enum Held {
    /// Beside others that are shared.
    Shared,
    /// Beside no other.
    Alone,
}

/// A file that can be locked as a whole. The lock is held until the file is closed, or the process ends.
pub trait Lock {
    /// Takes a lock beside no other one, without waiting.
    fn try_lock(&self) -> Result<(), TryLockError>;

    /// Takes a lock beside shared ones, without waiting.
    fn try_lock_shared(&self) -> Result<(), TryLockError>;

    /// Takes a lock beside no other one, and waits as long as another program holds one.
    fn lock(&self) -> io::Result<()>;

    /// Takes a lock beside shared ones, and waits as long as another program holds another one.
    fn lock_shared(&self) -> io::Result<()>;
}

impl Lock for File {
    fn try_lock(&self) -> Result<(), TryLockError> {
        File::try_lock(self)
    }

    fn try_lock_shared(&self) -> Result<(), TryLockError> {
        File::try_lock_shared(self)
    }

    fn lock(&self) -> io::Result<()> {
        File::lock(self)
    }

    fn lock_shared(&self) -> io::Result<()> {
        File::lock_shared(self)
    }
}

/// Takes a lock of the file that a user calls so. Only where that has to wait a line on standard error says so first. The system's
/// reason comes where it refuses the lock; a shared one that it doesn't know is done without.
pub fn take<R: Eprint, F: Lock>(rt: &R, file: &F, held: Held, name: &str) -> io::Result<()> {
    let tried = match held {
        Held::Shared => file.try_lock_shared(),
        Held::Alone => file.try_lock(),
    };
    match tried {
        Ok(()) => return Ok(()),
        Err(TryLockError::WouldBlock) => {}
        Err(TryLockError::Error(_)) if held == Held::Shared => return Ok(()),
        Err(TryLockError::Error(why)) => return Err(why),
    }
    let _ = eprintln!(rt; "ubq: waiting for another program that uses {name}");
    match held {
        Held::Shared => file.lock_shared(),
        Held::Alone => file.lock(),
    }
}
