//! Why a question about a lineage has no answer.

ghost use Rattle.std.specs.Prelude.{◌≡◌};
ghost use Rattle.merkle_dag.specs.Questions.{query_error};

use lc_base::HostError;

/// Why a question about a lineage has no answer.
#[derive(Clone, Copy, PartialEq, Eq)]
pub enum QueryError {
    /// It goes beyond the lineage: a block that it names is after the last one, or there are no
    /// blocks, or it is about a later block than the root's that it is asked under.
    Beyond {
        /// The number of the last block; `None` if there are no blocks.
        head: Option<u32>,
    },
    /// The scratch device failed.
    Fault,
    /// Out of memory.
    Memory,
}

impl From<HostError> for QueryError {
    ghost from_gives = { λ failed error. error ≡ query_error failed };

    fn from(error: HostError) -> QueryError {
        match error {
            HostError::Fault => QueryError::Fault,
            HostError::Memory => QueryError::Memory,
        }
    }
}
