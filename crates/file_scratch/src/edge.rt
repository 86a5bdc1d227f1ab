//! The edge over a real file: what the calls of the trait are on the host. No contract can name
//! what these do.

ghost use Rattle.std.specs.Prelude.{◌≡◌};

use crate::calls::{Calls, Created};
use lc_io::Failed;
use std::fs::{self, File, OpenOptions};
use std::io::ErrorKind;
use std::os::unix::fs::{FileExt, OpenOptionsExt};

/// Only the owner may open the file.
const MODE: u32 = 0o600;

/// The calls of the host.
#[derive(Drop)]
pub struct HostCalls<'a> {
    rt: &'a HostRuntime,
    file: Option<File>,
}

impl<'a> HostCalls<'a> {
    /// Over an open file, or none yet.
    pub fn new(rt: &'a HostRuntime, file: Option<File>) -> HostCalls<'a>
        ensures file { result.file ≡ file }
    {
        HostCalls { rt, file }
    }
}

impl<'a> Calls for HostCalls<'a> {
    fn create(&mut self, path: &str) -> Result<Created, Failed> {
        let mut options = OpenOptions::new();
        options.read(true).write(true).create_new(true).mode(MODE);
        match options.open(self.rt, path) {
            Ok(file) => self.file = Some(file),
            Err(e) if e.kind() == ErrorKind::AlreadyExists => return Ok(Created::Exists),
            Err(_) => return Err(Failed),
        }
        Ok(Created::Made)
    }

    /// The descriptor of a clone is 3 or more. If a standard stream was closed when the program
    /// started, its descriptor is free and a new file could get it.
    fn set_apart(&mut self) -> Result<(), Failed> {
        let clone = match &self.file {
            Some(file) => file.try_clone().map_err(|_| Failed)?,
            None => return Err(Failed),
        };
        self.file = Some(clone);
        Ok(())
    }

    fn remove(&mut self, path: &str) -> Result<(), Failed> {
        fs::remove_file(self.rt, path).map_err(|_| Failed)
    }

    fn write(&mut self, place: u64, bytes: &[u8]) -> Result<(), Failed> {
        match &self.file {
            Some(file) => file.write_all_at(bytes, place).map_err(|_| Failed),
            None => Err(Failed),
        }
    }

    fn read(&mut self, place: u64, buffer: &mut [u8]) -> Result<(), Failed> {
        match &self.file {
            Some(file) => file.read_exact_at(buffer, place).map_err(|_| Failed),
            None => Err(Failed),
        }
    }
}
