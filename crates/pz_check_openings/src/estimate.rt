// Bounds for the names of plain methods: the greatest number of statements that a method of the name
// opens as, whatever the class. No clause rests on how they are found; `are_settled` looks whether
// they hold.

use crate::declaring::is_marked;
use crate::heavy::is_heavy;
use crate::outline::Outline;
use crate::settled::{is_plain, total_by, value_of};
use crate::suspects::is_suspect;
use pz_check_calls::MANY;
use pz_check_components::components;
use pz_classes::pz_classes_code::Numbering;
use pz_classes::pz_items::Items;
use pz_classes::pz_syntax::Id;
use std::alloc::{AllocError, Global};

/// So many empty rows. The only error is want of memory.
fn empty_rows(alloc: Global, count: usize) -> Result<Vec<Vec<usize>>, AllocError> {
    let mut rows = Vec::new(alloc);
    for _row in 0..count {
        rows.push(Vec::new(alloc))?;
    }
    Ok(rows)
}

/// The names of the plain methods of a model.
#[derive(Drop)]
struct Names {
    /// Their numbers, from 0 on.
    numbering: Numbering,
    /// By the number of a name, the numbers of its methods.
    methods: Vec<Vec<usize>>,
}

/// The number of the method's name, if it has one.
fn number_of(names: &Numbering, method: &Outline) -> Option<u32> {
    names.get(method.name.name.as_str().as_bytes())
}

/// Notes the method of this number among those of its name. The only error is want of memory.
fn note(
    alloc: Global,
    names: &mut Names,
    number: usize,
    method: &Outline,
) -> Result<(), AllocError> {
    if number_of(&names.numbering, method).is_none() {
        let next = names.methods.len().min(u32::MAX as usize) as u32;
        names.numbering.add(alloc, &method.name.name, next)?;
        names.methods.push(Vec::new(alloc))?;
    }
    if let Some(name) = number_of(&names.numbering, method) {
        if (name as usize) < names.methods.len() {
            names.methods[name as usize].push(number)?;
        }
    }
    Ok(())
}

/// The names of these methods. The only error is want of memory.
fn names_of(alloc: Global, methods: &[Option<Outline>]) -> Result<Names, AllocError> {
    let mut names = Names {
        numbering: Numbering::new(alloc),
        methods: Vec::new(alloc),
    };
    for (number, method) in methods.iter().enumerate() {
        if let Some(method) = method {
            if is_plain(method) {
                note(alloc, &mut names, number, method)?;
            }
        }
    }
    Ok(names)
}

/// Adds the numbers of the names with which the method begins. The only error is want of memory.
fn push_begun(
    targets: &mut Items<u32>,
    names: &Numbering,
    method: &Outline,
) -> Result<(), AllocError> {
    for call in method.begun.as_slice() {
        if let Some(name) = names.get(call.name.as_str().as_bytes()) {
            targets.push(name)?;
        }
    }
    Ok(())
}

/// The numbers of the names with which these methods begin. The only error is want of memory.
fn targets_of(
    alloc: Global,
    methods: &[Option<Outline>],
    names: &Numbering,
    numbers: &[usize],
) -> Result<Items<u32>, AllocError> {
    let mut targets = Items::new(alloc);
    for number in numbers {
        if let Some(Some(method)) = methods.get(*number) {
            push_begun(&mut targets, names, method)?;
        }
    }
    Ok(targets)
}

/// The rank of each name, from 1 on: no method begins with a name of a higher rank, and names have the
/// same rank where methods of the names lead to each other. The only error is want of memory.
fn ranks_of(
    alloc: Global,
    methods: &[Option<Outline>],
    names: &Names,
) -> Result<Vec<u32>, AllocError> {
    let mut edges = Items::new(alloc);
    for numbers in names.methods.as_slice() {
        edges.push(targets_of(alloc, methods, &names.numbering, numbers.as_slice())?)?;
    }
    let mut ranks = Vec::new(alloc);
    for place in components(alloc, edges.as_slice())? {
        ranks.push(place.min(u32::MAX as usize - 1) as u32 + 1)?;
    }
    Ok(ranks)
}

/// The rank of the method's name; 0 where it has none.
fn rank_of(names: &Numbering, ranks: &[u32], method: &Outline) -> usize {
    value_of(names, ranks, &method.name.name) as usize
}

/// By ranks, the numbers of the plain methods whose names have the rank. The only error is want of
/// memory.
fn by_rank(
    alloc: Global,
    methods: &[Option<Outline>],
    names: &Numbering,
    ranks: &[u32],
) -> Result<Vec<Vec<usize>>, AllocError> {
    let mut rows = empty_rows(alloc, ranks.len().saturating_add(1))?;
    for (number, method) in methods.iter().enumerate() {
        if let Some(method) = method {
            let rank = rank_of(names, ranks, method);
            if is_plain(method) && rank < rows.len() {
                rows[rank].push(number)?;
            }
        }
    }
    Ok(rows)
}

/// What the method opens as by the bounds so far; more than is allowed where it can begin with itself.
fn bound_of(method: &Outline, names: &Numbering, ranks: &[u32], bounds: &[u32]) -> u32 {
    if is_suspect(method, names, ranks) {
        return MANY;
    }
    total_by(method.statements, method.begun.as_slice(), names, bounds)
}

/// Raises the bound of the method's name to what the method opens as.
fn raise(method: &Outline, names: &Numbering, ranks: &[u32], bounds: &mut Vec<u32>) {
    let bound = bound_of(method, names, ranks, bounds.as_slice());
    if let Some(name) = number_of(names, method) {
        let name = name as usize;
        if name < bounds.len() {
            bounds[name] = bound.max(bounds[name]);
        }
    }
}

/// The same for the methods of these numbers.
fn raise_all(
    methods: &[Option<Outline>],
    names: &Numbering,
    ranks: &[u32],
    numbers: &[usize],
    bounds: &mut Vec<u32>,
) {
    for number in numbers {
        if let Some(Some(method)) = methods.get(*number) {
            raise(method, names, ranks, bounds);
        }
    }
}

/// What was found of the names of plain methods.
#[derive(Drop)]
pub(crate) struct Estimates {
    pub(crate) names: Numbering,
    /// Of each name, at its number.
    pub(crate) ranks: Vec<u32>,
    /// Of each name, at its number.
    pub(crate) bounds: Vec<u32>,
    /// By ranks, the numbers of the methods.
    methods: Vec<Vec<usize>>,
}

/// The names of the plain methods, with a rank and a bound for each. The only error is want of
/// memory.
pub(crate) fn estimate(
    alloc: Global,
    methods: &[Option<Outline>],
) -> Result<Estimates, AllocError> {
    let names = names_of(alloc, methods)?;
    let ranks = ranks_of(alloc, methods, &names)?;
    let names = names.numbering;
    let rows = by_rank(alloc, methods, &names, ranks.as_slice())?;
    let mut bounds = vec![in alloc; 0; ranks.len()]?;
    for numbers in rows.as_slice() {
        raise_all(
            methods,
            &names,
            ranks.as_slice(),
            numbers.as_slice(),
            &mut bounds,
        );
    }
    Ok(Estimates {
        names,
        ranks,
        bounds,
        methods: rows,
    })
}

/// Marks the ranks of these calls.
fn mark(calls: &[Id], names: &Numbering, ranks: &[u32], marks: &mut Vec<bool>) {
    for call in calls {
        let rank = value_of(names, ranks, &call.name) as usize;
        if rank < marks.len() {
            marks[rank] = true;
        }
    }
}

/// Marks the ranks of all calls of methods that may be too large.
fn mark_heavy(methods: &[Option<Outline>], found: &Estimates, marks: &mut Vec<bool>) {
    for method in methods {
        if let Some(method) = method {
            if is_heavy(method, &found.names, found.bounds.as_slice()) {
                mark(
                    method.calls.as_slice(),
                    &found.names,
                    found.ranks.as_slice(),
                    marks,
                );
            }
        }
    }
}

/// Marks the ranks with which the methods of these numbers begin.
fn mark_begun(
    methods: &[Option<Outline>],
    found: &Estimates,
    numbers: &[usize],
    marks: &mut Vec<bool>,
) {
    for number in numbers {
        if let Some(Some(method)) = methods.get(*number) {
            mark(
                method.begun.as_slice(),
                &found.names,
                found.ranks.as_slice(),
                marks,
            );
        }
    }
}

/// Marks what opens out of marked ranks, from the highest rank down. Names of one rank lead to each
/// other, so they are marked together.
fn mark_down(methods: &[Option<Outline>], found: &Estimates, marks: &mut Vec<bool>) {
    for rank in (0..found.methods.len()).rev() {
        if rank < marks.len() && marks[rank] {
            mark_begun(methods, found, found.methods[rank].as_slice(), marks);
        }
    }
}

/// By names, whether methods of the name can open out of one that may be too large: 1, and else 0.
/// The only error is want of memory.
pub(crate) fn reached_of(
    alloc: Global,
    methods: &[Option<Outline>],
    found: &Estimates,
) -> Result<Vec<u32>, AllocError> {
    let mut marks = vec![in alloc; false; found.methods.len()]?;
    mark_heavy(methods, found, &mut marks);
    mark_down(methods, found, &mut marks);
    let mut reached = Vec::new(alloc);
    for rank in found.ranks.as_slice() {
        reached.push(u32::from(is_marked(marks.as_slice(), *rank)))?;
    }
    Ok(reached)
}
