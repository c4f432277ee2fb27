// What holds of cores in every network that keeps the duties.

ghost use Rattle.cores.specs.Theorems.{OneCore, ZeroCore, NestedCores, GroupsInCore};

// There is a core for every order and vector, and only one.
pub fn core_is_one()
    ensures { OneCore }
{}

// The core of the zero vector is all vertices of the network.
pub fn zero_core_is_all()
    ensures { ZeroCore }
{}

// The core of a higher vector lies inside that of a lower one.
pub fn higher_core_lies_inside()
    ensures { NestedCores }
{}

// Whoever belongs to some group that meets the vector belongs to the core, and nobody else does.
pub fn groups_lie_in_core()
    ensures { GroupsInCore }
{}
