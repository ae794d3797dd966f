// A walk over a graph that finds its components. Of the path that it has taken, the vertices that
// are known to reach each other stand together as a group; an edge that leads back joins groups,
// and a group none of whose edges leads out any more is a component.

ghost use Rattle.std.specs.Prelude.{◌≡◌, ◌≤◌, ◌++◌, false, length, IfOk, OnOk, IfSome};
ghost use Rattle.pz_check_components.specs.Graph as graph;
ghost use Rattle.pz_check_components.specs.devices.Walking as spec;
ghost use Rattle.pz_check_components.specs.devices.Walking.{walk_view};
ghost use Rattle.pz_check_components.specs.devices.IsWalk.{IsWalk, IsOpenEnded, Advances, AreJoined};

use pz_items::Items;
use std::alloc::{AllocError, Global};

/// What is known of a vertex.
#[derive(Clone, Copy, Debug, PartialEq, Eq)]
pub(crate) enum State {
    /// The walk has not come to it yet.
    Unseen,
    /// It stands at this place of the path.
    Open(usize),
    /// It is in the component of this number.
    Done(usize),
}

/// A part of the path whose vertices reach each other: up to where the next group starts.
#[derive(Clone, Copy, Debug, PartialEq, Eq)]
pub(crate) struct Group {
    /// The place of its first vertex in the path.
    start: usize,
    /// How many edges were to be followed before those of its vertices.
    pending: usize,
}

/// How far the walk has come.
#[derive(Drop)]
pub(crate) struct Walk {
    /// What is known of each vertex.
    pub(crate) states: Vec<State>,
    /// The vertices that are open.
    path: Vec<usize>,
    /// The groups of the path.
    groups: Vec<Group>,
    /// Where the edges lead that are to be followed, the next one last.
    pending: Vec<usize>,
    /// The groups that were found to be components.
    found: Vec<Group>,
}

/// What is known of the vertex.
fn state_of(states: &[State], vertex: usize) -> State
    ensures { result ≡ spec.state_of states.now vertex }
{
    match states.get(vertex) {
        Some(state) => *state,
        None => State::Done(0),
    }
}

/// Where the edges of the vertex lead.
fn targets(edges: &[Items<u32>], vertex: usize) -> &[u32]
    ensures { result.now ≡ graph.targets edges.now vertex }
{
    match edges.get(vertex) {
        Some(targets) => targets.as_slice(),
        None => &[],
    }
}

/// The edges to these vertices are to be followed. The only error is want of memory.
fn push_all(pending: &mut Vec<usize>, targets: &[u32]) -> Result<(), AllocError>
    ensures { OnOk result (pending.new.items ≡ pending.old.items ++ targets.now) }
{
    for target in targets {
        pending.push(*target as usize)?;
    }
    Ok(())
}

/// These vertices are in the component of this number.
fn mark_done(states: &mut Vec<State>, vertices: &[usize], number: usize)
    ensures { states.new.items ≡ spec.done_all states.old.items vertices.now number }
{
    for vertex in vertices {
        if *vertex < states.len() {
            states[*vertex] = State::Done(number);
        }
    }
}

/// The last of the groups.
fn last_of(groups: &[Group]) -> Option<Group>
    ensures { result ≡ spec.last_of groups.now }
{
    groups.last().copied()
}

/// Joins the groups that start after this place to the one before them.
fn join(groups: &mut Vec<Group>, place: usize)
    ensures joined { AreJoined place groups.old.items groups.new.items }
    ensures low { IfSome (spec.last_of groups.new.items) (λ g. g.start ≤ place) }
{
    while let Some(group) = last_of(groups.as_slice()) {
        if group.start <= place {
            return;
        }
        let _ = groups.pop();
    }
}

impl Walk {
    /// No vertex is seen yet, and each is to be. The only error is want of memory.
    pub(crate) fn new(alloc: Global, edges: &[Items<u32>]) -> Result<Walk, AllocError>
        ensures { IfOk result (λ w. walk_view w ≡ spec.nothing_seen edges.now) }
    {
        let mut states = Vec::new(alloc);
        let mut pending = Vec::new(alloc);
        for vertex in 0..edges.len() {
            states.push(State::Unseen)?;
            pending.push(vertex)?;
        }
        Ok(Walk {
            states,
            path: Vec::new(alloc),
            groups: Vec::new(alloc),
            pending,
            found: Vec::new(alloc),
        })
    }

    /// The vertex comes to the path, as a group of its own, and its edges are to be followed. The
    /// only error is want of memory.
    fn open(&mut self, edges: &[Items<u32>], vertex: usize) -> Result<(), AllocError>
        ensures { OnOk result (walk_view self.new ≡ spec.opened edges.now
            (walk_view self.old) vertex) }
    {
        let start = self.path.len();
        self.groups.push(Group {
            start,
            pending: self.pending.len(),
        })?;
        if vertex < self.states.len() {
            self.states[vertex] = State::Open(start);
        }
        self.path.push(vertex)?;
        push_all(&mut self.pending, targets(edges, vertex))
    }

    /// The vertices of this group, which has left the groups, are a component. The only error is
    /// want of memory.
    fn close(&mut self, group: Group) -> Result<(), AllocError>
        requires { group.start ≤ length self.old.path.items }
        ensures { OnOk result (walk_view self.new ≡ spec.closed (walk_view self.old) group) }
    {
        let number = self.found.len();
        self.found.push(group)?;
        let (_, members) = self.path.as_slice().split_at(group.start);
        mark_done(&mut self.states, members, number);
        self.path.truncate(group.start);
        Ok(())
    }

    /// The last group, if all edges that were to be followed from it have been.
    fn followed_group(&self) -> Option<Group>
        ensures { result ≡ spec.followed_group (walk_view self.now) }
    {
        let group = last_of(self.groups.as_slice())?;
        if self.pending.len() <= group.pending {
            Some(group)
        } else {
            None
        }
    }

    /// Whether nothing is left to be done.
    pub(crate) fn is_at_end(&self) -> bool
        ensures { result ≡ spec.is_at_end (walk_view self.now) }
    {
        self.groups.is_empty() && self.pending.is_empty()
    }

    /// Follows the next edge, where the last group has one. The only error is want of memory.
    fn follow(&mut self, edges: &[Items<u32>]) -> Result<(), AllocError>
        ensures { OnOk result (IsWalk edges.now (walk_view self.old) →
            IsOpenEnded (walk_view self.old) → Advances edges.now (walk_view self.old)
            (walk_view self.new)) }
    {
        let Some(vertex) = self.pending.pop() else {
            return Ok(());
        };
        match state_of(self.states.as_slice(), vertex) {
            State::Unseen => self.open(edges, vertex)?,
            State::Open(place) => join(&mut self.groups, place),
            State::Done(_) => (),
        }
        Ok(())
    }

    /// One step of the walk. The only error is want of memory.
    pub(crate) fn step(&mut self, edges: &[Items<u32>]) -> Result<(), AllocError>
        requires { IsWalk edges.now (walk_view self.old) }
        ensures { OnOk result (spec.is_at_end (walk_view self.old) ≡ false →
            Advances edges.now (walk_view self.old) (walk_view self.new)) }
    {
        match self.followed_group() {
            Some(group) => {
                let _ = self.groups.pop();
                self.close(group)
            }
            None => self.follow(edges),
        }
    }
}
