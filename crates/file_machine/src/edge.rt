//! The edge over a real file: each call of the trait is one of the system. No contract can name
//! what these do.

ghost use Rattle.std.specs.Prelude.{◌≡◌, ◌≤◌, None, length, IfOk};

use crate::calls::{CallError, Calls, Node, Stat};
use lc_io::Failed;
use std::fs::{self, File, Metadata, OpenOptions};
use std::io::{self, ErrorKind};
use std::os::unix::fs::{FileExt, MetadataExt};
use std::path::Path;

/// The folder of a path without one.
const PRESENT_FOLDER: &str = ".";

/// The calls of the host, for the file at a path.
#[derive(Drop)]
pub struct HostCalls<'a> {
    rt: &'a HostRuntime,
    path: &'a str,
    file: Option<File>,
}

impl<'a> HostCalls<'a> {
    /// No file is open yet. A relative path starts at the current folder.
    pub(crate) fn new(rt: &'a HostRuntime, path: &'a str) -> HostCalls<'a>
        ensures path { result.path.now ≡ path.now }
        ensures file { result.file ≡ None }
    {
        HostCalls {
            rt,
            path,
            file: None,
        }
    }

    fn file(&self) -> Result<&File, Failed> {
        match &self.file {
            Some(file) => Ok(file),
            None => Err(Failed),
        }
    }
}

/// Whether an opening failed since the file may not be written.
fn may_only_be_read(kind: ErrorKind) -> bool {
    matches!(
        kind,
        ErrorKind::PermissionDenied | ErrorKind::ReadOnlyFilesystem
    )
}

fn stat_of(metadata: &Metadata) -> Stat {
    Stat {
        node: Node {
            device: metadata.dev(),
            inode: metadata.ino(),
        },
        len: metadata.len(),
        is_regular: metadata.is_file(),
    }
}

fn error_of(error: io::Error) -> CallError {
    match error.kind() {
        ErrorKind::Interrupted => CallError::Interrupted,
        _ => CallError::Failed,
    }
}

/// Moves a file that was opened to a descriptor of 3 or more, which is that of a clone. If a
/// standard stream was closed when the program started, the first file that is opened gets its
/// descriptor, and what is printed would overwrite the file.
fn apart_from_streams(opened: io::Result<File>) -> Result<Option<File>, Failed> {
    match opened.and_then(|file| file.try_clone()) {
        Ok(clone) => Ok(Some(clone)),
        Err(_) => Err(Failed),
    }
}

impl<'a> Calls for HostCalls<'a> {
    ghost use Rattle.file_machine.specs.declared.calls.Stat.{Stat};

    ghost seen = { λ _. None };

    fn look(&mut self) -> Result<Option<Stat>, Failed> {
        match fs::metadata(self.rt, self.path) {
            Ok(metadata) => Ok(Some(stat_of(&metadata))),
            Err(e) if e.kind() == ErrorKind::NotFound => Ok(None),
            Err(_) => Err(Failed),
        }
    }

    fn open(&mut self) -> Result<(), Failed> {
        self.file = apart_from_streams(File::open(self.rt, self.path))?;
        Ok(())
    }

    fn open_for_writing(&mut self) -> Result<bool, Failed> {
        match OpenOptions::new()
            .read(true)
            .write(true)
            .open(self.rt, self.path)
        {
            Err(e) if may_only_be_read(e.kind()) => return Ok(false),
            opened => self.file = apart_from_streams(opened)?,
        }
        Ok(true)
    }

    fn create(&mut self) -> Result<(), Failed> {
        self.file = apart_from_streams(File::create_new(self.rt, self.path))?;
        Ok(())
    }

    fn stat(&mut self) -> Result<Stat, Failed> {
        let metadata = self.file()?.metadata().map_err(|_| Failed)?;
        Ok(stat_of(&metadata))
    }

    fn lock(&mut self) -> Result<(), Failed> {
        self.file()?.try_lock().map_err(|_| Failed)
    }

    fn read(&mut self, at: u64, buffer: &mut [u8]) -> Result<usize, CallError>
        ensures bound { IfOk result (λ n. n ≤ length buffer.new) }
    {
        match &self.file {
            Some(file) => file.read_at(buffer, at).map_err(error_of),
            None => Err(CallError::Failed),
        }
    }

    fn write(&mut self, _node: Node, _len: u64, at: u64, bytes: &[u8]) -> Result<usize, CallError>
        ensures bound { IfOk result (λ n. n ≤ length bytes.now) }
    {
        match &self.file {
            Some(file) => file.write_at(bytes, at).map_err(error_of),
            None => Err(CallError::Failed),
        }
    }

    fn sync(&mut self) -> Result<(), Failed> {
        self.file()?.sync_data().map_err(|_| Failed)
    }

    fn sync_folder(&mut self) -> Result<(), Failed> {
        let folder = match Path::new(self.path).parent() {
            Some(folder) if !folder.as_str().is_empty() => folder.as_str(),
            _ => PRESENT_FOLDER,
        };
        let synced = File::open(self.rt, folder).and_then(|folder| folder.sync_all());
        synced.map_err(|_| Failed)
    }
}
