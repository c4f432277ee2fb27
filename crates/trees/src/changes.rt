// What a layer put in front of a tree, or taken off it, does.

ghost use Rattle.trees.specs.Theorems.{OneInFront, OneTakenOff, FrontOfNetwork, OffNetwork, OffInEitherOrder, OffNeedsNoMore};

// A layer put in front gives one tree, whatever networks the others came from.
pub fn one_in_front()
    ensures { OneInFront }
{}

// A layer taken off gives one tree, whatever networks the layers came from.
pub fn one_taken_off()
    ensures { OneTakenOff }
{}

// Over one network, a layer put in front gives the tree on the longer order.
pub fn front_of_network()
    ensures { FrontOfNetwork }
{}

// Over one network, a layer taken off gives the tree on the shorter order.
pub fn off_network()
    ensures { OffNetwork }
{}

// Two layers taken off leave the same tree in either order.
pub fn off_in_either_order()
    ensures { OffInEitherOrder }
{}

// A layer taken off leaves no more nodes, and no more stored vertices.
pub fn off_needs_no_more()
    ensures { OffNeedsNoMore }
{}
