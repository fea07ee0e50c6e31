/// What a piece of a text is read as.
#[derive(Clone, Copy, Debug, PartialEq, Eq)]
pub enum Source {
    /// A clause of a program.
    Program,
    Query,
}
