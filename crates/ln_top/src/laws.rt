//! Laws: words and files whose bytes are known end in one way, and require one output; what decides a row whose value isn't 0; of the C that
//! `emit` puts lnc_c says what the headline does; and accepted sources declare the predicates of their tables.
ghost use Rattle.std.specs.Prelude.{◌≡◌, ℕ, List, Some};
ghost use Rattle.ln_base.specs.Outside.{Shelf};
ghost use Rattle.ln_watch.specs.Panel.{State};
ghost use Rattle.ln_top.specs.declared.frame.status.End.{End};
ghost use Rattle.ln_top.specs.Frame.Said.{Said};
ghost use Rattle.ln_top.specs.Agree.{MeaningsAgree, ProgramsAgree};
ghost use Rattle.ln_top.specs.Answer.{Answer};
ghost use Rattle.ln_top.specs.ByValue.{ValuesDecide};
ghost use Rattle.ln_top.specs.Causes.{Ends};
ghost use Rattle.ln_top.specs.Plan.{Plan};
ghost use Rattle.ln_top.specs.Sources.{AcceptedDeclare, CollinearIsPlus, DeclaredAreOf, OrientationIsDeclared};
ghost use Rattle.ln_top.specs.Frame.Given.{Outcome, Given};
ghost use Rattle.ln_top.specs.Steps.{Prepares};
ghost use Rattle.ln_top.specs.Works.{AreOneValued};

/// A law: over files whose bytes are known the steps of a plan come to one thing.
pub fn one_prepared()
    ensures { (plan : Plan) (shelf : Shelf) (o p : Outcome Given)
        → Prepares plan (Some shelf) o → Prepares plan (Some shelf) p → o ≡ p }
{}

/// A law: words and files whose bytes are known end in one way.
pub fn one_end()
    ensures { (words : List (List ℕ)) (shelf : Shelf) (a b : End)
        → Ends words (Some shelf) a → Ends words (Some shelf) b → a ≡ b }
{}

/// A law: they require one output, where their command isn't `list` or `emit`: more than one text may be true of a source.
pub fn one_answer()
    ensures { (words : List (List ℕ)) (shelf : Shelf) (boxes : List State) → AreOneValued words
        → (a b : Said) → Answer words (Some shelf) boxes a → Answer words (Some shelf) boxes b → a ≡ b }
{}

/// A law: where the value of a predicate on a row in range isn't 0, the required verdict has its sign. Where the filter decides the row
/// the verdict is the filter's, by one call and nothing in 128 bits; else it is that of block 0, by one call after the filter's, if there
/// is a filter.
pub fn values_decide()
    ensures { ValuesDecide }
{}

/// A law: where a line of a text of calls is the call of a predicate on a row in its declared ranges, the line that lnc_c writes for it, from the C
/// that `emit` put, is the perturbed sign and two counts.
///
/// On it rests that whoever doubts a compiler of C can ask lnc_c for the same rows.
pub fn emitted_calls_agree()
    ensures meanings { MeaningsAgree }
    ensures programs { ProgramsAgree }
{}

/// A law: an accepted source declares predicates, which have the names, the columns and the expressions of those of its table, one by one, and
/// it declares no others.
///
/// So what `run`, `emit` and `list` promise of declared predicates they promise of each predicate of an accepted source.
pub fn sources_declare()
    ensures some { AcceptedDeclare }
    ensures only { DeclaredAreOf }
{}

/// A law: the bytes of examples/orientation/orient.ln declare the orientation of three points; the fields of three points on a line are a row of it,
/// whose perturbed sign is plus.
pub fn orientation_is_declared()
    ensures declared { OrientationIsDeclared }
    ensures collinear { CollinearIsPlus }
{}
