// The words of lines.

ghost use Rattle.std.specs.Prelude.{◌≡◌};
ghost use Rattle.pz_trace.specs.Words as words;

use pz_rules::Kind;
use pz_rules::pz_state::FaultKind;

pub(crate) fn kind_word(kind: Kind) -> &'static str
    ensures { result.now ≡ words.kind_word kind }
{
    match kind {
        Kind::Skip => "skip",
        Kind::Eval => "eval",
        Kind::Test => "test",
        Kind::Expire => "expire",
        Kind::Call => "call",
    }
}

pub(crate) fn fault_word(kind: FaultKind) -> &'static str
    ensures { result.now ≡ words.fault_word kind }
{
    match kind {
        FaultKind::Overflow => "Overflow",
        FaultKind::DivideByZero => "DivideByZero",
        FaultKind::NotUnderstood => "NotUnderstood",
        FaultKind::Index => "Index",
        FaultKind::NegativeDelay => "NegativeDelay",
        FaultKind::NotBoolean => "NotBoolean",
        FaultKind::NotInteger => "NotInteger",
        FaultKind::StoreFull => "StoreFull",
        FaultKind::ClockTooLarge => "ClockTooLarge",
    }
}
