/// What a statement does with a name and a value.
#[derive(Clone, Copy)]
pub enum Binding {
    /// The name becomes visible, and stands for the value.
    Declares,
    /// The visible name stands for the value from now on.
    Assigns,
}
