use pz_value::{Text, Value};
use std::test::Fail;

#[test]
fn a_copied_text_has_the_same_bytes(rt: HostRuntime) -> Result<(), Fail> {
    let value = Value::Str(Text::new([10u8, 255].to_vec(rt.alloc())?));
    let copy = value.copy()?;
    assert!(rt; matches!(&copy, Value::Str(text) if text.as_bytes() == [10, 255].as_slice()));
    Ok(())
}
