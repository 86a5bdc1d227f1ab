//! The calls that a machine makes of the system, and of the file at one path. Each method is one
//! call; what is made of them, and in which order, is proved over this trait.

ghost use Rattle.std.specs.Prelude.{◌≡◌, ℕ, ◌≤◌, true, length, Option, IfOk, IfSome, OnOk};
ghost use Rattle.file_machine.specs.Looks.{is_file_of};

use lc_io::Failed;

/// Which file a file is. While it is open, no other file has its numbers.
#[derive(Clone, Copy, PartialEq, Eq)]
pub struct Node {
    /// The number of its device.
    pub device: u64,
    /// Its number there.
    pub inode: u64,
}

/// What the system says of a file.
#[derive(Clone, Copy)]
pub struct Stat {
    /// Which file it is.
    pub node: Node,
    /// Its length in bytes.
    pub len: u64,
    /// Whether it is a regular file.
    pub is_regular: bool,
}

/// How a read or a write ended that moved no bytes.
#[derive(Clone, Copy)]
pub enum CallError {
    /// A signal came before a byte was moved.
    Interrupted,
    /// Any other error.
    Failed,
}

/// The calls of the file at a path. At most one file is open; opening one closes that.
pub trait Calls {
    ghost use Rattle.file_machine.specs.declared.calls.Stat.{Stat};

    /// What the last call saw at the path, if that call was a look. `None` if it is not known. No
    /// other call says what it is afterwards, so what rests on it rests on a look right before.
    ghost seen: { Self → Option (Option Stat) };

    /// What stands at the path; `None` if nothing does.
    fn look(&mut self) -> Result<Option<Stat>, Failed>
        ensures seen { IfOk result (λ found. IfSome (seen self.new) (λ seen. seen ≡ found)) };

    /// Opens the file at the path for reading.
    fn open(&mut self) -> Result<(), Failed>;

    /// Opens the file at the path for reading and writing. Returns whether it may be written; if
    /// not, the file that was open stays open.
    fn open_for_writing(&mut self) -> Result<bool, Failed>;

    /// Makes the file at the path, where nothing stands, and opens it for reading and writing.
    fn create(&mut self) -> Result<(), Failed>;

    /// What the system says of the open file.
    fn stat(&mut self) -> Result<Stat, Failed>;

    /// Takes the lock of the open file, and fails if another program has it.
    fn lock(&mut self) -> Result<(), Failed>;

    /// Reads the open file at an offset. No byte is read only at its end.
    fn read(&mut self, at: u64, buffer: &mut [u8]) -> Result<usize, CallError>
        ensures bound { IfOk result (λ n. n ≤ length buffer.new) };

    /// Writes at an offset to the open file, which a look saw in its place right before, with its
    /// length. Returns how many bytes it took.
    fn write(&mut self, node: Node, len: u64, at: u64, bytes: &[u8]) -> Result<usize, CallError>
        requires looked { IfSome (seen self.old) (λ seen. is_file_of node len seen ≡ true) }
        ensures bound { IfOk result (λ n. n ≤ length bytes.now) };

    /// Syncs the bytes of the open file and its length.
    fn sync(&mut self) -> Result<(), Failed>;

    /// Syncs the folder of the path.
    fn sync_folder(&mut self) -> Result<(), Failed>;
}
