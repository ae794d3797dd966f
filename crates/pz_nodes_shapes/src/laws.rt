// Laws of shapes, each the contract of a function that does nothing.

ghost use Rattle.pz_nodes_shapes.specs.Laws.{TakenInHand, ChildReplaced, Touched, PutBack, TakenAway, ChangesCompose, MadeAnew, StandsByItsKeys, KeysAreUsed, IsRead, IsNoDeeper, IsNoLarger, StandsSeen, ChangeSeen, DropSeen};

/// Every change below a node is this: it is taken in hand, its children become others, and it is put back
/// or taken away.
pub fn nodes_are_taken_and_put<X>()
    ensures taken { TakenInHand X }
    ensures child { ChildReplaced X }
    ensures touched { Touched X }
    ensures put_back { PutBack X }
    ensures taken_away { TakenAway X }
{}

/// One change after another is a change. What stands is decided by what is under its keys, and all of these
/// are used.
pub fn changes_compose<X>()
    ensures compose { ChangesCompose X }
    ensures made { MadeAnew X }
    ensures stands { StandsByItsKeys X }
    ensures used { KeysAreUsed X }
{}

/// What stands under a key is what is read there. It has no more nodes than there are, and is no deeper than
/// it has nodes.
pub fn shapes_are_read<X>()
    ensures read { IsRead X }
    ensures depth { IsNoDeeper X }
    ensures size { IsNoLarger X }
{}

/// Whatever holds of nodes holds of them where what they hold is seen as something else.
pub fn shapes_are_seen<X, Y>()
    ensures stands { StandsSeen X Y }
    ensures change { ChangeSeen X Y }
    ensures drop { DropSeen X Y }
{}
