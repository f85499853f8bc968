ghost use Rattle.rip_law_syntax.specs.Bound.{BoundNamesAreResolved, NamesAreBoundAtHome, OwnNamesAreBound};

/// A law, and no work: in the program of scripts each node that binds a name is resolved to a binding.
pub fn bound_names_are_resolved()
    ensures { BoundNamesAreResolved }
{}

/// A law, and no work: the name of a part of `var`, of a parameter and of a function declaration is one that the scope of
/// the nearest script or function binds, and means that binding, or that of a catch clause of the same name around a part
/// of `var`. The name of a catch clause or of a function expression is the one binding of a scope of its own.
pub fn names_are_bound_at_home()
    ensures around { NamesAreBoundAtHome }
    ensures own { OwnNamesAreBound }
{}
