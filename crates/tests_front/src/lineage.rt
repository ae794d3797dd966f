use pz_classes_lineage::{Visit, go_round, preorder};
use std::test::Fail;

#[test]
fn the_classes_of_a_cycle_go_round(rt: HostRuntime) -> Result<(), Fail> {
    let parents = [Some(1), Some(2), Some(1), None, Some(3), Some(5)];
    let round = go_round(rt.alloc(), parents.as_slice())?;
    assert_eq!(rt;
        round.as_slice(),
        [false, true, true, false, false, true].as_slice()
    );
    Ok(())
}

#[test]
fn a_class_comes_with_all_that_descend_from_it(rt: HostRuntime) -> Result<(), Fail> {
    let parents = [None, Some(3), Some(0), None, Some(3), Some(2)];
    let visits = preorder(rt.alloc(), &parents)?;
    let wanted = [(0, 0), (2, 1), (5, 2), (3, 0), (1, 1), (4, 1)];
    assert_eq!(rt; visits.len(), wanted.len());
    for (visit, (class, depth)) in visits.iter().zip(wanted) {
        assert_eq!(rt; *visit, Visit { class, depth });
    }
    Ok(())
}
