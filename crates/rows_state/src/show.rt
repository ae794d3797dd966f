use pz_copy::pz_value::Value;
use std::io;

/// The most bytes that are shown of a String.
const SHOWN: usize = 100;

fn show_text(rt: &HostRuntime, bytes: &[u8]) -> io::Result<()> {
    let len = bytes.len();
    if len > SHOWN {
        return print!(rt; "{len} bytes");
    }
    match str::from_utf8(bytes) {
        Ok(text) => print!(rt; "\"{text}\""),
        Err(_) => print!(rt; "{len} bytes"),
    }
}

/// Shows a value.
pub fn value(rt: &HostRuntime, value: &Value) -> io::Result<()> {
    match value {
        Value::Nil => print!(rt; "nil"),
        Value::Bool(b) => print!(rt; "{b}"),
        Value::Int(n) => print!(rt; "{n}"),
        Value::Char(c) => {
            let c = char::from(*c);
            print!(rt; "'{c}'")
        }
        Value::Str(text) => show_text(rt, text.as_bytes()),
        Value::Ref(r) => print!(rt; "@{r}"),
    }
}
