//! Tests of the front end's public calls that no text leads to. What a text leads to is a row of the
//! program `rows_front`.
//!
//! Tests of walks over classes, of nested scopes and of components of graphs, over their public
//! calls: what no clause pins, and that ample memory gives an answer.
#![tactic(auto)]

#[cfg(test)]
mod copies;
#[cfg(test)]
mod graphs;
#[cfg(test)]
mod laws;
#[cfg(test)]
mod lineage;
#[cfg(test)]
mod lists;
#[cfg(test)]
mod scopes;
#[cfg(test)]
mod selectors;
