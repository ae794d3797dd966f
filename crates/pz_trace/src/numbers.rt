// Numbers in decimal, at the end of a text. Memory is taken for the text alone.

ghost use Rattle.std.specs.Prelude.{◌≡◌, ◌++◌, codes, OnOk};
ghost use Rattle.pz_trace.specs.Words.{pos_text};

use itoa::{Buffer, Integer};
use pz_rules::pz_syntax::Pos;
use std::alloc::AllocError;

/// Puts a number.
pub(crate) fn put_number<I: Integer>(out: &mut Vec<u8>, number: I) -> Result<(), AllocError>
    ensures { OnOk result (out.new.items ≡ out.old.items ++ I.text number) }
{
    let mut digits = Buffer::new();
    out.extend_from_slice(digits.format(number).as_bytes())
}

/// Puts a number and the blank behind it.
pub(crate) fn put_leading<I: Integer>(out: &mut Vec<u8>, number: I) -> Result<(), AllocError>
    ensures { OnOk result (out.new.items ≡ out.old.items ++ (I.text number ++ codes " ")) }
{
    put_number(out, number)?;
    out.extend_from_slice(b" ")
}

/// Puts a place in the text of the model.
pub(crate) fn put_place(out: &mut Vec<u8>, pos: Pos) -> Result<(), AllocError>
    ensures { OnOk result (out.new.items ≡ out.old.items ++ pos_text pos) }
{
    put_number(out, pos.line)?;
    out.push(b':')?;
    put_number(out, pos.column)
}
