//! Laws of the format. Each is the contract of a function that does nothing.

ghost use Rattle.light_client.specs.FileLaws.{
  WrittenFilesAreRead,
  ReadFilesAreWritten,
  UnreadInputsAreShortOrDiffer,
};

/// A file of fewer than 2^32 blocks is read from its bytes, and what follows them is left.
pub fn written_files_are_read()
    ensures { WrittenFilesAreRead }
{}

/// The bytes of a file that is read are just those that were taken, and it can be written.
pub fn read_files_are_written()
    ensures { ReadFilesAreWritten }
{}

/// No file is read exactly from an input that has fewer than `HEAD_BYTES` bytes, doesn't begin with
/// `MAGIC`, or has fewer than `BLOCK_ROOT_BYTES` after its head for each block that the head
/// counts.
pub fn unread_inputs_are_short_or_differ()
    ensures { UnreadInputsAreShortOrDiffer }
{}
