use pz_bind_rules::pz_check_violations::Violation;
use pz_bind_rules::pz_syntax::Pos;

/// Why a text is refused, and where. What has no tokens is not looked at further, and what has no tree
/// violates no rule.
#[derive(Clone, Copy, Debug, PartialEq, Eq)]
pub enum Refusal {
    /// A byte that begins no token, or the `\` of an unknown escape.
    BadByte(Pos),
    /// A comment without end.
    OpenComment(Pos),
    /// A string or a character that is not closed, or a character that has not exactly one item.
    OpenString(Pos),
    /// An integer that is too large, or a number that a letter follows.
    BadNumber(Pos),
    /// The tokens are those of no tree within 100 constructs one in another.
    Syntax(Pos),
    /// The same, where more than 100 tokens begin a construct.
    TooNested(Pos),
    /// A rule of the checker is violated.
    Violates(Violation),
}
