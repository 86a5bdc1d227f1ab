/// One of the two lists that belong to a version.
#[derive(Clone, Copy)]
pub enum Side {
    /// What the version was derived from: its dependencies.
    Back,
    /// What was derived from the version: its uses.
    Fwd,
}
