use pz_check_components::components;
use pz_syntax::pz_items::Items;
use std::alloc::{AllocError, Global};
use std::test::Fail;

/// A vertex with edges to these.
fn push_edges(
    alloc: Global,
    edges: &mut Items<Items<u32>>,
    targets: &[u32],
) -> Result<(), AllocError> {
    edges.push(Items::from_vec(Vec::from_slice(alloc, targets)?))
}

#[test]
fn a_ring_has_one_number_and_what_leads_there_another(rt: HostRuntime) -> Result<(), Fail> {
    let mut edges = Items::new(rt.alloc());
    push_edges(rt.alloc(), &mut edges, &[1])?;
    push_edges(rt.alloc(), &mut edges, &[2, 7])?;
    push_edges(rt.alloc(), &mut edges, &[3, 4])?;
    push_edges(rt.alloc(), &mut edges, &[1])?;
    push_edges(rt.alloc(), &mut edges, &[4])?;
    let numbers = components(rt.alloc(), edges.as_slice())?;
    assert_eq!(rt; numbers.as_slice(), [2, 1, 1, 1, 0].as_slice());
    Ok(())
}
