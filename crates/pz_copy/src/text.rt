//! The text of values and of parcels, byte by byte at the end of a buffer.

ghost use Rattle.std.specs.Prelude.{◌≡◌, ◌<◌, ◌≤◌, ◌++◌, ◌∷◌, [], length, map, IfOk, OnOk};
ghost use Rattle.std.specs.Fmt.{decimal, signed_decimal};
ghost use Rattle.std.specs.List.{flat_map};
ghost use Rattle.pz_items.specs.Characters.{byte};
ghost use Rattle.pz_copy.specs.Parcels.{plain_objects};
ghost use Rattle.pz_copy.specs.ParcelText as spec;
ghost use Rattle.pz_copy.specs.ParcelText.{hex_digit, item_text, quoted, value_text, values_text, object_text, object_texts, objects_text, separated, parcel_text};
ghost use Rattle.pz_state.specs.States.{object_limit};

use crate::parcel::Parcel;
use pz_state::Object;
use pz_state::pz_value::{ClassId, Text, Value};
use std::alloc::AllocError;

fn hex_digit(digit: u8) -> u8
    requires { digit < 16 }
    ensures { result ≡ hex_digit digit }
{
    if digit < 10 {
        b'0' + digit
    } else {
        b'a' - 10 + digit
    }
}

/// An item between these quotes.
fn put_item(out: &mut Vec<u8>, quote: u8, byte: u8) -> Result<(), AllocError>
    ensures { OnOk result (out.new.items ≡ out.old.items ++ item_text quote byte) }
{
    if byte == b'\\' || byte == quote {
        out.extend_from_slice(&[b'\\', byte])
    } else if byte >= b' ' && byte <= b'~' {
        out.extend_from_slice(&[byte])
    } else {
        out.extend_from_slice(&[b'\\', b'x', hex_digit(byte / 16), hex_digit(byte % 16)])
    }
}

/// Items and the quotes around them.
fn put_quoted(out: &mut Vec<u8>, quote: u8, bytes: &[u8]) -> Result<(), AllocError>
    ensures { OnOk result (out.new.items ≡ out.old.items ++ quoted quote bytes.now) }
{
    out.push(quote)?;
    for byte in bytes {
        put_item(out, quote, *byte)?;
    }
    out.push(quote)?;
    Ok(())
}

fn put_integer(out: &mut Vec<u8>, n: i64) -> Result<(), AllocError>
    ensures { OnOk result (out.new.items ≡ out.old.items ++ signed_decimal n) }
{
    let digits = format!(in *out.allocator(); "{n}")?;
    out.extend_from_slice(digits.as_bytes())
}

fn put_number(out: &mut Vec<u8>, n: u32) -> Result<(), AllocError>
    ensures { OnOk result (out.new.items ≡ out.old.items ++ byte "#" ∷ decimal n) }
{
    let digits = format!(in *out.allocator(); "#{n}")?;
    out.extend_from_slice(digits.as_bytes())
}

fn put_value(out: &mut Vec<u8>, value: &Value) -> Result<(), AllocError>
    ensures { OnOk result (out.new.items ≡ out.old.items ++ value_text value.now) }
{
    match value {
        Value::Nil => out.extend_from_slice(b"nil"),
        Value::Bool(true) => out.extend_from_slice(b"true"),
        Value::Bool(false) => out.extend_from_slice(b"false"),
        Value::Int(n) => put_integer(out, *n),
        Value::Char(byte) => put_quoted(out, b'\'', &[*byte]),
        Value::Str(text) => put_quoted(out, b'"', text.as_bytes()),
        Value::Ref(r) => put_number(out, *r),
    }
}

/// The values, separated by commas.
fn put_values(out: &mut Vec<u8>, values: &[Value]) -> Result<(), AllocError>
    ensures { OnOk result (out.new.items ≡ out.old.items ++ values_text values.now) }
{
    let Some((first, rest)) = values.split_first() else {
        return Ok(());
    };
    put_value(out, first)?;
    for value in rest {
        out.push(b',')?;
        put_value(out, value)?;
    }
    Ok(())
}

/// The name of a class among the names by number; nothing where it has none.
fn name_of(names: &[Text], class: ClassId) -> &[u8]
    ensures { result.now ≡ spec.name_of names.now class }
{
    match names.get(class.0 as usize) {
        Some(name) => name.as_bytes(),
        None => &[],
    }
}

/// The object of this number, with the names of classes by number.
fn put_object(
    out: &mut Vec<u8>,
    names: &[Text],
    number: u32,
    object: &Object,
) -> Result<(), AllocError>
    ensures { OnOk result (out.new.items ≡ out.old.items ++ object_text names.now number
        object.now.object) }
{
    put_number(out, number)?;
    out.push(b'=')?;
    out.extend_from_slice(name_of(names, object.class()))?;
    out.push(b'[')?;
    put_values(out, object.items())?;
    out.push(b']')?;
    Ok(())
}

/// The objects in braces, separated by semicolons; nothing where there is none.
fn put_objects(out: &mut Vec<u8>, names: &[Text], objects: &[Object]) -> Result<(), AllocError>
    requires { length objects.now ≤ object_limit }
    ensures { OnOk result (out.new.items ≡ out.old.items ++ objects_text names.now
        (plain_objects objects.now)) }
{
    let Some((first, rest)) = objects.split_first() else {
        return Ok(());
    };
    out.push(b'{')?;
    put_object(out, names, 0, first)?;
    for (place, object) in rest.iter().enumerate() {
        out.push(b';')?;
        put_object(out, names, place as u32 + 1, object)?;
    }
    out.push(b'}')?;
    Ok(())
}

impl Parcel {
    /// The values in parentheses and the objects in braces, with the names of classes by number; a
    /// class that has none is told by nothing. The only error is want of memory.
    pub fn text(&self, names: &[Text]) -> Result<Vec<u8>, AllocError>
        ensures { IfOk result (λ text. text.items ≡ parcel_text names.now self.now) }
    {
        let mut out = Vec::new(self.allocator());
        out.push(b'(')?;
        put_values(&mut out, self.values())?;
        out.push(b')')?;
        put_objects(&mut out, names, self.objects())?;
        Ok(out)
    }
}
