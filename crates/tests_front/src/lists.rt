use pz_syntax::pz_items::{Boxed, Items};
use std::test::Fail;

#[test]
fn a_list_keeps_what_is_pushed_and_gives_it_back(rt: HostRuntime) -> Result<(), Fail> {
    let mut list = Items::new(rt.alloc());
    assert!(rt; list.is_empty());
    list.push(4u8)?;
    list.push(9u8)?;
    assert_eq!(rt; list.len(), 2);
    assert_eq!(rt; list.as_slice(), [4, 9].as_slice());
    let again = Items::from_vec(list.into_vec());
    assert_eq!(rt; again.as_slice(), [4, 9].as_slice());
    Ok(())
}

#[test]
fn a_box_gives_its_value_back(rt: HostRuntime) -> Result<(), Fail> {
    let boxed = Boxed::new(rt.alloc(), 7u32)?;
    assert_eq!(rt; *boxed.get(), 7);
    assert_eq!(rt; boxed.into_inner(), 7);
    Ok(())
}
