use crate::standard::MOST_INTERRUPTS;
use std::fs::{File, Metadata, OpenOptions, TryLockError};
use std::io;
use std::io::ErrorKind;
use std::os::fd::AsRawFd;
use std::os::unix::fs::MetadataExt;
use std::path::Path;
use std::rt::Files;

/// The highest number of a standard descriptor.
const STANDARD_ERROR: i32 = 2;

/// Where the system shows what the standard descriptors lead to.
const DESCRIPTORS: &str = "/proc/self/fd";

const STANDARD_FILES: [&str; 2] = ["/proc/self/fd/0", "/proc/self/fd/1"];

/// Opens a journal, and a port where it has a name. A journal is a regular file that is neither standard input nor
/// standard output nor the port, and that no other run holds; any other is refused before a byte of it is written.
/// A missing one is made, and the folder of an empty one is synced, so that it is there after a power cut.
pub fn open_both<R: Files<File = File>>(
    files: &R,
    journal: &str,
    port: &str,
) -> io::Result<(File, Option<File>)> {
    if port.is_empty() {
        let journal = open_journal(files, journal, None)?;
        return Ok((journal, None));
    }
    let port = open(files, OpenOptions::new().read(true).write(true), port)?;
    let journal = open_journal(files, journal, Some(&port))?;
    Ok((journal, Some(port)))
}

/// The length of an open file.
pub fn length_of(file: &File) -> io::Result<u64> {
    Ok(ask_again(|| file.metadata())?.len())
}

fn open_journal<R: Files<File = File>>(
    files: &R,
    path: &str,
    port: Option<&File>,
) -> io::Result<File> {
    if let Some(found) = look(files, path)? {
        check_apart(files, &found, port)?;
    }
    let journal = open_or_make(files, path)?;
    let found = ask_again(|| journal.metadata())?;
    check_apart(files, &found, port)?;
    take_lock(&journal)?;
    if found.len() == 0 {
        sync_folder(files, path)?;
    }
    Ok(journal)
}

/// Opens a file that is there, or makes one. Two runs may do so at once: then one makes it, and both open it.
fn open_or_make<R: Files<File = File>>(files: &R, path: &str) -> io::Result<File> {
    match open_present(files, path) {
        Err(error) if error.kind() == ErrorKind::NotFound => {}
        answer => return answer,
    }
    sync_folder(files, path)?;
    match open(
        files,
        OpenOptions::new().read(true).write(true).create_new(true),
        path,
    ) {
        Err(error) if error.kind() == ErrorKind::AlreadyExists => open_present(files, path),
        answer => answer,
    }
}

fn open_present<R: Files<File = File>>(files: &R, path: &str) -> io::Result<File> {
    open(files, OpenOptions::new().read(true).write(true), path)
}

/// Opens a file above the standard descriptors, so that it never takes the place of one that is closed.
fn open<R: Files<File = File>>(files: &R, options: &OpenOptions, path: &str) -> io::Result<File> {
    let file = options.open(files, path)?;
    if file.as_raw_fd() > STANDARD_ERROR {
        return Ok(file);
    }
    let copy = file.try_clone()?;
    if copy.as_raw_fd() > STANDARD_ERROR {
        return Ok(copy);
    }
    Err(refused())
}

/// Makes sure of the names in the folder of a file. A folder that cannot be read or synced is a fault.
fn sync_folder<R: Files<File = File>>(files: &R, path: &str) -> io::Result<()> {
    let folder = match Path::new(path).parent() {
        Some(folder) if !folder.as_os_str().is_empty() => folder,
        _ => Path::new("."),
    };
    File::open(files, folder)?.sync_all()
}

/// Asks for the lock on a journal. A file system that knows no locks tells of no other run.
fn take_lock(journal: &File) -> io::Result<()> {
    match journal.try_lock() {
        Err(TryLockError::WouldBlock) => Err(io::Error::from(ErrorKind::WouldBlock)),
        Ok(()) | Err(TryLockError::Error(_)) => Ok(()),
    }
}

/// Refuses what is no regular file, or is standard input, standard output or the port.
fn check_apart<R: Files>(files: &R, found: &Metadata, port: Option<&File>) -> io::Result<()> {
    if !found.is_file() || is_standard(files, found)? {
        return Err(refused());
    }
    match port {
        Some(port) if is_same(found, &ask_again(|| port.metadata())?) => Err(refused()),
        _ => Ok(()),
    }
}

/// Whether a file is standard input or standard output. Where the system does not show these, that is a fault.
fn is_standard<R: Files>(files: &R, found: &Metadata) -> io::Result<bool> {
    ask_again(|| files.metadata(DESCRIPTORS))?;
    for path in STANDARD_FILES {
        if look(files, path)?.is_some_and(|standard| is_same(found, &standard)) {
            return Ok(true);
        }
    }
    Ok(false)
}

fn is_same(one: &Metadata, other: &Metadata) -> bool {
    one.dev() == other.dev() && one.ino() == other.ino()
}

/// What stands under a name, or none where nothing does.
pub(crate) fn look<R: Files>(files: &R, path: &str) -> io::Result<Option<Metadata>> {
    match ask_again(|| files.metadata(path)) {
        Ok(found) => Ok(Some(found)),
        Err(error) if error.kind() == ErrorKind::NotFound => Ok(None),
        Err(error) => Err(error),
    }
}

/// What the system says of a file, asked again where a signal interrupts the question.
fn ask_again<F: Fn() -> io::Result<Metadata> + Drop>(ask: F) -> io::Result<Metadata>
    requires { F.IsAlwaysCallable ask }
{
    for _ in 0..MOST_INTERRUPTS {
        match ask() {
            Err(error) if error.kind() == ErrorKind::Interrupted => {}
            answer => return answer,
        }
    }
    ask()
}

fn refused() -> io::Error {
    io::Error::from(ErrorKind::InvalidInput)
}
