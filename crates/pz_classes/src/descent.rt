// Which class goes on with the line of the one that it extends. What a class has does not hang on
// it; but a line goes on to where most classes descend, so that from any class one comes through few
// lines up to the root, and its names are soon looked up.

use crate::ancestry::parent_at;
use pz_classes_lineage::Visit;
use std::alloc::{AllocError, Global};

fn weight_at(weights: &[u32], class: u32) -> u32 {
    weights.get(class as usize).copied().unwrap_or(0)
}

/// Adds the weight of a class to that of its parent.
fn add_weight(weights: &mut [u32], parent: Option<u32>, class: u32) {
    let more = weight_at(weights, class);
    let Some(parent) = parent else {
        return;
    };
    if let Some(weight) = weights.get_mut(parent as usize) {
        *weight = weight.saturating_add(more);
    }
}

/// How many classes descend from each, itself among them. In the visits each class comes after its
/// parent. The only error is want of memory.
fn weights_of(
    alloc: Global,
    parents: &[Option<u32>],
    visits: &[Visit],
) -> Result<Vec<u32>, AllocError> {
    let mut weights = vec![in alloc; 1u32; parents.len()]?;
    for visit in visits.iter().rev() {
        let parent = parent_at(parents, visit.class);
        add_weight(weights.as_mut_slice(), parent, visit.class);
    }
    Ok(weights)
}

/// Makes the class the heir of its parent, if it has more weight than the heir so far.
fn prefer(heirs: &mut [Option<u32>], weights: &[u32], parent: Option<u32>, class: u32) {
    let Some(parent) = parent else {
        return;
    };
    let heir = parent_at(heirs, parent);
    let most = heir.map_or(0, |heir| weight_at(weights, heir));
    if weight_at(weights, class) > most && (parent as usize) < heirs.len() {
        heirs[parent as usize] = Some(class);
    }
}

/// Of each class the one that goes on with its line: of those that extend it, the first from which
/// most classes descend. The only error is want of memory.
pub(crate) fn heirs_of(
    alloc: Global,
    parents: &[Option<u32>],
    visits: &[Visit],
) -> Result<Vec<Option<u32>>, AllocError> {
    let weights = weights_of(alloc, parents, visits)?;
    let mut heirs = vec![in alloc; None; parents.len()]?;
    for visit in visits {
        let parent = parent_at(parents, visit.class);
        prefer(
            heirs.as_mut_slice(),
            weights.as_slice(),
            parent,
            visit.class,
        );
    }
    Ok(heirs)
}
