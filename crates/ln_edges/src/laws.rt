//! States the laws of edges: a program finds exactly the edges of a set of points, and a points file is read in one way.
ghost use Rattle.ln_edges.specs.Law.{LinesAreOfEdges, MachineFindsEdges, PointsSuit};
ghost use Rattle.ln_edges.specs.Read.{PointFaultIsOne, PointsAreOne, PointsHaveNoFault};
ghost use Rattle.ln_edges.specs.Three.{TablesGiveThree};

/// The pairs of points that a program finds are the edges by the perturbed sign of the expression that the program
/// carries.
///
/// From it follows that the pairs that are written are the edges of the set of points.
pub fn program_finds_edges()
    ensures edges { MachineFindsEdges }
    ensures lines { LinesAreOfEdges }
{}

/// Records are one list of points, or one of them is the first that is no point, and not both.
///
/// It follows that a points file has one result.
pub fn records_are_read_one_way()
    ensures points { PointsAreOne }
    ensures fault { PointFaultIsOne }
    ensures apart { PointsHaveNoFault }
{}

/// Points that were read from records of a type are in range for a program over three sites of that type.
///
/// From it follows that the program runs on them without a check.
pub fn points_suit()
    ensures { PointsSuit }
{}

/// A predicate of exactly three sites of one type has the type's coordinates three times as its variables.
///
/// From it follows that the points of the type are in range for the predicate's program.
pub fn tables_give_three()
    ensures { TablesGiveThree }
{}
