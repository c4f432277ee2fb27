// What holds of a tree as it stands.

ghost use Rattle.trees.specs.Theorems.{LnzIsLast, OneTree, RecordsCores, OneParents, OnePaths, CoresSplit, LinesLieTogether, RoomIsCounted};

// lnz is the last position with a nonzero demand, and 1 for the zero vector.
pub fn lnz_is_last()
    ensures { LnzIsLast }
{}

// A network has one tree on each order.
pub fn one_tree()
    ensures { OneTree }
{}

// What the tree of a network records are its cores.
pub fn records_cores()
    ensures { RecordsCores }
{}

// Each node but the root has one parent.
pub fn one_parent()
    ensures { OneParents }
{}

// One path leads from the root to each place.
pub fn one_path()
    ensures { OnePaths }
{}

// The core at a node is what it stores and, apart from that, the core at its child at the last
// position.
pub fn cores_split()
    ensures { CoresSplit }
{}

// The child at the last position stands at the next place, and what is stored on a line stands side
// by side.
pub fn lines_lie_together()
    ensures { LinesLieTogether }
{}

// A tree has more than so many nodes, or stored vertices, just if its cores ask for more.
pub fn room_is_counted()
    ensures { RoomIsCounted }
{}
