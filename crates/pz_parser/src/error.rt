use pz_syntax::Pos;

/// Why tokens are not the text of a model, and where.
#[derive(Clone, Copy, Debug, PartialEq, Eq)]
pub enum ParseError {
    /// Memory ran out.
    NoMemory,
    /// They are the text of no model, however deep. The place is that of the first token with which
    /// no text of a model goes on, or the end.
    Syntax(Pos),
    /// The text of a deeper model may go on with the token at this place, and that of none within
    /// the limit.
    TooNested(Pos),
}
