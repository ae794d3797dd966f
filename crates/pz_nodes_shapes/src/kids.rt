ghost use Rattle.std.specs.Prelude.{◌≡◌, ◌<◌, [], ◌∷◌, length, slice_set};

use pz_nodes::Key;
use std::marker::Model;

/// The keys of the children of a node, by number; None for a child that is gone. Contracts see the list of
/// them. Up to two lie in the node itself.
#[derive(Drop)]
pub struct Kids {
    held: Held,
}

#[derive(Drop)]
enum Held {
    Nothing,
    One([Option<Key>; 1]),
    Two([Option<Key>; 2]),
    Many(Vec<Option<Key>>),
}

impl Model for Kids {
    ghost use Rattle.std.specs.Prelude.{ℕ, List, Option};
    ghost use Rattle.pz_nodes_shapes.specs.Kids.{keys_of};

    ghost Value = { List (Option ℕ) };

    ghost view = { λ k. keys_of k.held };
}

impl Kids {
    /// A node without children.
    pub fn none() -> Kids
        ensures { result ≡ [] }
    {
        Kids {
            held: Held::Nothing,
        }
    }

    /// One child.
    pub fn one(kid: Option<Key>) -> Kids
        ensures { result ≡ kid ∷ [] }
    {
        Kids {
            held: Held::One([kid]),
        }
    }

    /// Two children.
    pub fn two(first: Option<Key>, second: Option<Key>) -> Kids
        ensures { result ≡ first ∷ second ∷ [] }
    {
        Kids {
            held: Held::Two([first, second]),
        }
    }

    /// So many children. Takes no memory.
    pub fn many(kids: Vec<Option<Key>>) -> Kids
        ensures { result ≡ kids.items }
    {
        Kids {
            held: Held::Many(kids),
        }
    }

    /// The keys, by number.
    pub fn as_slice(&self) -> &[Option<Key>]
        ensures { result.now ≡ self.now }
    {
        match &self.held {
            Held::Nothing => &[],
            Held::One(kids) => kids,
            Held::Two(kids) => kids,
            Held::Many(kids) => kids.as_slice(),
        }
    }

    /// The child of this number becomes another, or is gone. Takes no memory.
    pub fn put(&mut self, number: usize, kid: Option<Key>)
        requires { number < length self.old }
        ensures { self.new ≡ slice_set self.old number kid }
    {
        match &mut self.held {
            Held::Nothing => {}
            Held::One(kids) => put_at(kids, number, kid),
            Held::Two(kids) => put_at(kids, number, kid),
            Held::Many(kids) => kids[number] = kid,
        }
    }
}

fn put_at(kids: &mut [Option<Key>], number: usize, kid: Option<Key>)
    requires { number < length kids.old }
    ensures { kids.new ≡ slice_set kids.old number kid }
{
    kids[number] = kid;
}
