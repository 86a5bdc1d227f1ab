//! The calls that a scratch device makes of the system. What is made of them, and in which order,
//! is proved over this trait.

use lc_io::Failed;

/// What became of making a file.
#[derive(Clone, Copy)]
pub enum Created {
    /// It was made, and is open.
    Made,
    /// Something has its name already, and stays as it is.
    Exists,
}

/// The calls of a file that no other run has. At most one file is open.
pub trait Calls {
    /// Makes a file at a path at which nothing stands, and opens it for reading and writing. Its
    /// owner alone may open it.
    fn create(&mut self, path: &str) -> Result<Created, Failed>;

    /// Moves the open file to a descriptor that is none of a standard stream.
    fn set_apart(&mut self) -> Result<(), Failed>;

    /// Removes the name at a path.
    fn remove(&mut self, path: &str) -> Result<(), Failed>;

    /// Writes all bytes at a place of the open file.
    fn write(&mut self, place: u64, bytes: &[u8]) -> Result<(), Failed>;

    /// Fills the buffer with the bytes at a place of the open file. If it ends earlier, that is a
    /// fault.
    fn read(&mut self, place: u64, buffer: &mut [u8]) -> Result<(), Failed>;
}
