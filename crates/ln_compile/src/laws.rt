//! A source has one result; what is accepted by weights is accepted; and the programs of a table are programs of one list.
ghost use Rattle.std.specs.Prelude.{◌≡◌, ◌≤◌, ℕ, All, List, length, map};
ghost use Rattle.std.specs.List.{AllByRecursion};
ghost use Rattle.ln_base.specs.Limits.{most_stages};
ghost use Rattle.ln_tree.specs.declared.table.Table.{Table};
ghost use Rattle.ln_tree.specs.Table.{PredOf, TableOf, pred_of};
ghost use Rattle.ln_parse.specs.Text.{TextOf};
ghost use Rattle.ln_code.specs.Kept.{ArePrograms};
ghost use Rattle.ln_code.specs.Part.{Part};
ghost use Rattle.ln_compile.specs.declared.refusal.Refusal.{Refusal};
ghost use Rattle.ln_compile.specs.Accepted.{Accepted, IsSound};
ghost use Rattle.ln_compile.specs.Compiled.{AreProgramsOf};
ghost use Rattle.ln_compile.specs.Faultless.{FaultlessIsAccepted};
ghost use Rattle.ln_compile.specs.Refused.{IsRefusedFor};
ghost use Rattle.ln_compile.specs.Weighed.{AcceptedByWeight, IsFitPred, IsSoundByWeight};

/// A law: a source is accepted or refused, for one thing, and not both: one with a table that is refused for nothing is accepted.
pub fn one_refusal()
    ensures one { (bytes : List ℕ) (r s : Refusal) → IsRefusedFor bytes r → IsRefusedFor bytes s → r ≡ s }
    ensures not_both { (bytes : List ℕ) (t : TableOf) (r : Refusal) → Accepted bytes t → IsRefusedFor bytes r → ⊥ }
    ensures either { FaultlessIsAccepted }
{}

/// A law: a source that is accepted by the weights of its nodes is accepted by their ranges and sizes and by the weight of the
/// whole. So is each predicate of the language, whatever source it is in; and the predicates of sources are of the language.
pub fn what_was_accepted_stays_accepted()
    ensures source { (bytes : List ℕ) (t : TableOf) → AcceptedByWeight bytes t → Accepted bytes t }
    ensures pred { (p : PredOf) → IsFitPred p → IsSoundByWeight p → IsSound p }
    ensures fit { (bytes : List ℕ) (t : TableOf) → TextOf bytes t → AllByRecursion IsFitPred t.preds }
{}

/// A law: programs of the predicates of a table, one for each in order and each with at most 65,536 blocks, are programs whose names
/// differ, whether they are there at once or one after the other.
pub fn programs_of_a_table()
    ensures { (t : Table) (cs : List Part) → AreProgramsOf (map pred_of t.preds) cs → All (λ c. length c.blocks ≤ most_stages) cs
        → ArePrograms cs }
{}
