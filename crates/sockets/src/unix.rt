// A Unix socket that only one user can open.
ghost use Rattle.std.specs.Prelude.{◌≡◌};

use crate::servers::MOST_PATH;
use std::alloc::Global;
use std::fs::{self, File, Files, Permissions, TryLockError};
use std::io::{self, ErrorKind};
use std::net::Net;
use std::os::unix::fs::{FileTypeExt, MetadataExt, PermissionsExt};
use std::os::unix::net::{UnixListener, UnixStream};
use std::path::Path;
use std::thread;
use std::time::{Clock, Duration};
use thiserror::Error;

/// Who may do what with the folder in which a socket is made: its user alone, everything.
const PRIVATE_FOLDER: u32 = 0o700;

/// Who may open a socket: its user alone.
const PRIVATE_SOCKET: u32 = 0o600;

/// How many times the lock of a folder is asked for while another holds it.
const TURNS: u32 = 1000;

/// How many milliseconds pass between two of them: ten seconds in all.
const PAUSE: u64 = 10;

/// How many folders may stand there that starts left which were killed, or that others made.
const MOST_LEFT: u32 = 10;

/// Why nobody listens.
#[derive(Clone, Copy, Debug, PartialEq, Eq, Drop, Error)]
pub enum OpenFault {
    /// The address is neither a path that begins with `/` nor a host, `:` and a port.
    #[error("not an address")]
    BadAddress,
    /// Somebody listens there.
    #[error("already in use")]
    InUse,
    /// At the path stands something that is no socket.
    #[error("no socket stands there")]
    NoSocket,
    /// The folder of the path isn't there.
    #[error("no such folder")]
    NoFolder,
    /// No socket has a path that long.
    #[error("name too long")]
    TooLong,
    /// This user may not listen there.
    #[error("permission denied")]
    Denied,
    /// Nobody knows a host of this name.
    #[error("no such host")]
    NoHost,
    /// Somebody else keeps the folder of the path locked.
    #[error("its folder is locked")]
    Locked,
    /// The system refuses it, and says this of it.
    #[error("{0}")]
    Refused(ErrorKind),
    /// Memory ran out.
    #[error("out of memory")]
    NoMemory,
}

/// What a failure of the system comes to.
pub(crate) fn fault_of(kind: ErrorKind) -> OpenFault
    ensures { result ≡ OpenFault.NoSocket → ⊥ }
{
    match kind {
        ErrorKind::InvalidInput => OpenFault::BadAddress,
        ErrorKind::AddrInUse => OpenFault::InUse,
        ErrorKind::NotFound | ErrorKind::NotADirectory => OpenFault::NoFolder,
        ErrorKind::InvalidFilename => OpenFault::TooLong,
        ErrorKind::PermissionDenied => OpenFault::Denied,
        ErrorKind::OutOfMemory => OpenFault::NoMemory,
        // So the resolver tells each of its failures.
        ErrorKind::Uncategorized => OpenFault::NoHost,
        other => OpenFault::Refused(other),
    }
}

/// Listens at a path. A socket there that nobody answers on is replaced. The socket is made in a folder beside it that is
/// its user's alone, closed to all others, and only then moved to its path. Meanwhile the folder that both stand in is
/// locked, so that of two starts at once the second finds the socket of the first, which listens. The lock ends with its
/// holder, and what a start left that was killed is removed by the next.
pub(crate) fn listen_at<R: Files<File = File> + Net + Clock>(
    rt: &R,
    alloc: Global,
    path: &str,
) -> Result<UnixListener, OpenFault> {
    if path.len() > MOST_PATH {
        return Err(OpenFault::TooLong);
    }
    let parent = match Path::new(path).parent() {
        Some(parent) => parent.as_str(),
        None => return Err(OpenFault::NoSocket),
    };
    let _turn = take_turn(rt, parent)?;
    check_free(rt, path)?;
    let folder = make_folder(rt, alloc, parent)?;
    let Ok(inner) = inner_of(alloc, &folder) else {
        let _ = rt.remove_dir(&folder);
        return Err(OpenFault::NoMemory);
    };
    let listener = listen_in(rt, &inner, path);
    if listener.is_err() {
        let _ = rt.remove_file(&inner);
    }
    let _ = rt.remove_dir(&folder);
    listener.map_err(|error| fault_of(error.kind()))
}

// Waits until nobody else begins to listen in a folder, and holds others up for as long as the result is kept.
fn take_turn<R: Files<File = File> + Clock>(rt: &R, parent: &str) -> Result<File, OpenFault> {
    let folder = File::open(rt, parent).map_err(|error| fault_of(error.kind()))?;
    for _ in 0..TURNS {
        match folder.try_lock() {
            Ok(()) => return Ok(folder),
            Err(TryLockError::WouldBlock) => thread::sleep(rt, Duration::from_millis(PAUSE)),
            Err(TryLockError::Error(error)) => return Err(fault_of(error.kind())),
        }
    }
    Err(OpenFault::Locked)
}

// The path of a socket in a folder that is its alone.
fn inner_of(alloc: Global, folder: &str) -> Result<String, OpenFault> {
    format!(in alloc; "{folder}/s").map_err(|_| OpenFault::NoMemory)
}

// The path of the folder of this number.
fn folder_of(alloc: Global, parent: &str, number: u32) -> Result<String, OpenFault> {
    format!(in alloc; "{parent}/~{number}").map_err(|_| OpenFault::NoMemory)
}

// Makes a folder that is its user's alone, and removes those of its user that stand there, since who made them is gone.
fn make_folder<R: Files>(rt: &R, alloc: Global, parent: &str) -> Result<String, OpenFault> {
    for number in 0..MOST_LEFT {
        let folder = folder_of(alloc, parent, number)?;
        match rt.create_dir_with_mode(&folder, PRIVATE_FOLDER) {
            Ok(()) => {
                remove_left(rt, alloc, parent, number, &folder);
                return Ok(folder);
            }
            Err(error) if error.kind() == ErrorKind::AlreadyExists => {}
            Err(error) => return Err(fault_of(error.kind())),
        }
    }
    Err(OpenFault::Refused(ErrorKind::AlreadyExists))
}

// Removes all other folders that the user of the one made has. What others made, a symbolic link too, is left alone, and
// nobody else can move a folder of this user's in one that all may write to, as /tmp.
fn remove_left<R: Files>(rt: &R, alloc: Global, parent: &str, number: u32, made: &str) {
    let Ok(mine) = fs::symlink_metadata(rt, made) else {
        return;
    };
    for other in 0..MOST_LEFT {
        if other != number
            && let Ok(folder) = folder_of(alloc, parent, other)
            && let Ok(inner) = inner_of(alloc, &folder)
            && let Ok(found) = fs::symlink_metadata(rt, folder.as_str())
            && found.is_dir()
            && found.uid() == mine.uid()
        {
            let _ = rt.remove_file(&inner);
            let _ = rt.remove_dir(&folder);
        }
    }
}

// Makes the socket in a folder of its own, closes it to other users, and moves it.
fn listen_in<R: Files + Net>(rt: &R, inner: &str, path: &str) -> io::Result<UnixListener> {
    let listener = UnixListener::bind(rt, inner)?;
    rt.set_permissions(inner, Permissions::from_mode(PRIVATE_SOCKET))?;
    rt.rename(inner, path)?;
    Ok(listener)
}

// Whether a socket may be made at a path: nothing stands there, or a socket on which nobody answers.
fn check_free<R: Files + Net>(rt: &R, path: &str) -> Result<(), OpenFault> {
    match fs::symlink_metadata(rt, path) {
        Ok(found) if !found.file_type().is_socket() => return Err(OpenFault::NoSocket),
        Ok(_) => {}
        Err(error) if error.kind() == ErrorKind::NotFound => return Ok(()),
        Err(error) => return Err(fault_of(error.kind())),
    }
    match UnixStream::connect(rt, path) {
        Ok(_) => Err(OpenFault::InUse),
        Err(error) => match error.kind() {
            ErrorKind::ConnectionRefused => Ok(()),
            ErrorKind::PermissionDenied => Err(OpenFault::Denied),
            _ => Err(OpenFault::InUse),
        },
    }
}
