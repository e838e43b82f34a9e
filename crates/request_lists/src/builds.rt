// How generations are built.

/// How a life builds its generations.
#[derive(Clone, Copy, Debug, PartialEq, Eq, Drop)]
pub enum Builds {
    /// In turn with the rounds: no mark is told while one is built.
    InTurn,
    /// Beside them: marks of later requests may be told meanwhile.
    Beside,
}
