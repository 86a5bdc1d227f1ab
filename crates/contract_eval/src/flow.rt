/// How a statement ended, if it didn't fail.
#[derive(Clone, Copy)]
pub enum Flow {
    /// The next statement runs.
    Goes,
    /// The function has returned.
    Returns,
}
