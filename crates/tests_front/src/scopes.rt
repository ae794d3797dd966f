use pz_check_scopes::Nested;
use std::test::Fail;

#[test]
fn the_innermost_note_counts_until_its_scope_is_left(rt: HostRuntime) -> Result<(), Fail> {
    let mut places = Nested::new(rt.alloc());
    places.open()?;
    places.note("x".as_bytes(), 1u32)?;
    places.note("y".as_bytes(), 2)?;
    places.open()?;
    assert_eq!(rt; places.get("x".as_bytes()), Some(1));
    places.note("x".as_bytes(), 3)?;
    places.note("x".as_bytes(), 4)?;
    places.note("z".as_bytes(), 5)?;
    assert_eq!(rt; places.get("x".as_bytes()), Some(4));
    places.close_to(2);
    assert_eq!(rt; places.get("z".as_bytes()), Some(5));
    places.close_to(1);
    assert_eq!(rt; places.get("x".as_bytes()), Some(1));
    assert_eq!(rt; places.get("y".as_bytes()), Some(2));
    assert_eq!(rt; places.get("z".as_bytes()), None);
    Ok(())
}

#[test]
fn a_set_of_names_is_empty_once_all_scopes_are_left(rt: HostRuntime) -> Result<(), Fail> {
    let mut names = Nested::new(rt.alloc());
    for name in ["a", "b", "a"] {
        names.open()?;
        names.note(name.as_bytes(), ())?;
    }
    assert_eq!(rt; names.get("a".as_bytes()), Some(()));
    names.close_to(1);
    assert_eq!(rt; names.get("a".as_bytes()), Some(()));
    assert_eq!(rt; names.get("b".as_bytes()), None);
    names.close_to(0);
    assert_eq!(rt; names.get("a".as_bytes()), None);
    Ok(())
}
