//! What the rules promise, and the machine on rows in range.
ghost use Rattle.ln_code.specs.Law.{BlocksMean, FiltersMean};
ghost use Rattle.ln_code.specs.NodeList.{NodesAreListed};
ghost use Rattle.ln_code.specs.MachineLaw.{ListsAreStageLists, ProgramsRun, RowsHaveVerdicts, VerdictIsUnique};

/// On every row in range a block that follows the rules has a result, the value of the expression that it carries, and so each
/// of its values stays in its pair and its width; a filter that follows them leaves a number near the value, and above its
/// error the two have one sign.
#[tactic(auto, using(crate::proofs::Following::Means::blocks_mean, crate::proofs::Following::Means::filters_mean))]
pub fn rules_keep_values()
    ensures blocks { BlocksMean }
    ensures filters { FiltersMean }
{}

/// The machine of a part whose blocks and filter follow the rules has exactly one verdict on every row in range. A program is such
/// a part.
///
/// On it rests that a row has one sign, one place and one number of calls.
pub fn rows_have_one_verdict()
    ensures programs { ProgramsRun }
    ensures exists { RowsHaveVerdicts }
    ensures unique { VerdictIsUnique }
{}

/// The lists of a part that carries an expression are its stage lists, one for each order of the sites.
pub fn lists_are_stage_lists()
    ensures { ListsAreStageLists }
{}

/// The nodes of a tree and of its lets are the members of one list, each with its width, in order of evaluation.
///
/// On it rests that "a node of the tree" can be read in its plain meaning, in the statements on the polynomials that are pushed.
pub fn nodes_are_listed()
    ensures { NodesAreListed }
{}
