//! The predicates of a product as they are run: with the names of their columns and their programs.
ghost use Rattle.std.specs.Prelude.{◌≡◌, ◌≢◌, ◌≤◌, ◌<◌, ◌++◌, [], ◌∷◌, All, List, length, map, slice_get, slice_index_or, Some};
ghost use Rattle.std.specs.Prelude.{None, IfOk, IfSome, OnOk, Ok};
ghost use Rattle.ln_algebra.specs.Product.{multiplied_numbers};
ghost use Rattle.ln_tree.specs.Table.{PredOf, pred_of};
ghost use Rattle.ln_code.specs.RowOf.{row_of};
ghost use Rattle.ln_due.specs.Due.{sign_number};
ghost use Rattle.ln_factor.specs.Factors.{AreMadeFor, numbers_of};
ghost use Rattle.ln_rows.specs.Header.{names_of};
ghost use Rattle.ln_top.specs.Target.Factors.{AreDue, AreFactors, AreMade, AreMadeAt, AreProgramsAt, Grows, HaveOneShape, IsInRangeOf, IsRoomFor};
ghost use Rattle.ln_compile.specs.Compiled.{AreNumbered};

use ln_base::{NoMemory, Sign};
use ln_code::{By, Program, Programs, Row, Scratch, Verdict};
use ln_compile::Checked;
use ln_factor::product_row;
use ln_tree::{Pred, Table};
use std::alloc::Global;
use std::marker::Model;

/// Predicates of a source that have the same arguments, with their table and the programs of the distinct ones. Contracts see the first
/// predicate, the names of its columns, the programs, and for each factor the place of its program.
#[derive(Drop)]
pub struct Factors<'a> {
    table: &'a Table,
    pred: &'a Pred,
    programs: Programs,
    which: Vec<usize>,
}

// The verdict before any row.
const BLANK: Verdict = Verdict {
    sign: Sign::Zero,
    by: By::Nothing,
    wide: 0,
    calls: 0,
};

/// The memory in which the factors run: a scratch and a verdict for each.
#[derive(Drop)]
pub struct Room {
    /// A scratch for each factor, made for its program.
    pub scratches: Vec<Scratch>,
    /// The verdicts of the factors for the row that was run last, in order.
    pub verdicts: Vec<Verdict>,
}

impl<'a> Model for Factors<'a> {
    ghost use Rattle.std.specs.Coded.{codes};
    ghost use Rattle.ln_tree.specs.contracts.expr.Node as node;
    ghost use Rattle.ln_rows.specs.Header.{names_of};
    ghost use Rattle.ln_top.specs.Target.Factors.{AreFactors, FactorsOf, factors_of};

    ghost Value = { FactorsOf };

    ghost coded = { Prim.hlevel (codes, node.the_row.coded) };

    ghost view = { λ t. factors_of t.pred.now (names_of t.table.now t.pred.now) t.programs t.which.items };

    ghost invariant = { λ t. AreFactors (factors_of t.pred.now (names_of t.table.now t.pred.now) t.programs t.which.items) };
}

// Returns the place of a number, from 0; none where it isn't there.
fn place_of(numbers: &[usize], i: usize) -> Option<usize>
    ensures there { IfSome result (λ k. slice_get numbers.now k ≡ Some i) }
    ensures none { result ≡ None → All (λ j. j ≢ i) numbers.now }
{
    'each: for (k, j) in numbers.iter().enumerate() {
        if *j == i {
            return Some(k);
        }
    }
    None
}

// Makes the program of predicate number `i`, which isn't there yet, and adds it.
fn add(
    alloc: Global,
    c: &Checked,
    numbers: &mut Vec<usize>,
    programs: &mut Programs,
    i: usize,
) -> Result<(), NoMemory>
    requires within { i < length c.now.table.preds }
    requires made { AreMade (map pred_of c.now.table.preds) numbers.old.items programs.old }
    requires new { All (λ j. j ≢ i) numbers.old.items }
    ensures numbers { OnOk result (numbers.new.items ≡ numbers.old.items ++ i ∷ []) }
    ensures made { OnOk result (AreMade (map pred_of c.now.table.preds) numbers.new.items programs.new) }
{
    let program = c.program(alloc, i)?;
    // The contract of `blocks` states that the program follows the rules.
    let _blocks = program.blocks();
    programs.push(program)?;
    numbers.push(i)?;
    Ok(())
}

// Returns the place of the program of predicate number `i`, which is made where it isn't there yet.
fn place(
    alloc: Global,
    c: &Checked,
    numbers: &mut Vec<usize>,
    programs: &mut Programs,
    i: usize,
) -> Result<usize, NoMemory>
    requires within { i < length c.now.table.preds }
    requires made { AreMade (map pred_of c.now.table.preds) numbers.old.items programs.old }
    ensures there { IfOk result (λ k. slice_get numbers.new.items k ≡ Some i) }
    ensures made { OnOk result (AreMade (map pred_of c.now.table.preds) numbers.new.items programs.new) }
    ensures grows { OnOk result (Grows numbers.old.items numbers.new.items) }
{
    if let Some(k) = place_of(numbers.as_slice(), i) {
        return Ok(k);
    }
    let k = numbers.len();
    add(alloc, c, numbers, programs, i)?;
    Ok(k)
}

// Makes the programs of the predicates with these numbers, each once, and returns their places.
fn places(
    alloc: Global,
    c: &Checked,
    programs: &mut Programs,
    wanted: &[usize],
) -> Result<Vec<usize>, NoMemory>
    requires within { All (λ i. i < length c.now.table.preds) wanted.now }
    requires none { programs.old ≡ [] }
    ensures { IfOk result (λ v. AreMadeAt (map pred_of c.now.table.preds) programs.new v.items wanted.now) }
{
    let mut numbers = Vec::new(alloc);
    let mut which = Vec::new(alloc);
    'each: for i in wanted {
        let k = place(alloc, c, &mut numbers, programs, *i)?;
        which.push(k)?;
    }
    Ok(which)
}

// Makes a scratch for the program at each place.
fn scratches(alloc: Global, programs: &[Program], which: &[usize]) -> Result<Vec<Scratch>, NoMemory>
    requires { All (λ i. i < length programs.now) which.now }
    ensures { IfOk result (λ v. AreMadeFor programs.now which.now v.items) }
{
    let mut scratches = Vec::new(alloc);
    'each: for i in which {
        let scratch = Scratch::new(alloc, &programs[*i])?;
        scratches.push(scratch)?;
    }
    Ok(scratches)
}

// Returns n verdicts.
fn blanks(alloc: Global, n: usize) -> Result<Vec<Verdict>, NoMemory>
    ensures { IfOk result (λ v. length v.items ≡ n) }
{
    let v = vec![in alloc; BLANK; n]?;
    Ok(v)
}

impl<'a> Factors<'a> {
    /// Makes the programs of the predicates of a source with these numbers, from 0: of one to eight, which have the same arguments. A
    /// number may be there more than once; its program is made once.
    pub fn new(alloc: Global, c: &'a Checked, numbers: &[usize]) -> Result<Factors<'a>, NoMemory>
        requires shape { HaveOneShape (map pred_of c.now.table.preds) numbers.now }
        requires some { 1 ≤ length numbers.now }
        requires few { length numbers.now ≤ 8 }
        ensures pred { IfOk result (λ t. slice_get c.now.table.preds (slice_index_or numbers.now 0 0) ≡ Some t.pred) }
        ensures names { IfOk result (λ t. t.names ≡ names_of c.now.table t.pred) }
        ensures factors { IfOk result AreFactors }
        ensures programs { IfOk result (λ t. (ps : List PredOf) → AreNumbered (map pred_of c.now.table.preds) numbers.now ps
            → AreProgramsAt t.programs t.which ps) }
    {
        let mut programs = Programs::new(alloc);
        let which = places(alloc, c, &mut programs, numbers)?;
        Ok(Factors {
            table: c.table(),
            pred: c.pred(numbers[0]),
            programs,
            which,
        })
    }

    /// Returns the first predicate.
    pub fn pred(&self) -> &Pred
        ensures { result.now ≡ self.now.pred }
    {
        self.pred
    }

    /// Returns the table that names the columns.
    pub fn table(&self) -> &Table
        ensures { self.now.names ≡ names_of result.now self.now.pred }
    {
        self.table
    }

    /// Makes the memory in which the factors run.
    pub fn make_room(&self, alloc: Global) -> Result<Room, NoMemory>
        ensures room { IfOk result (λ r. IsRoomFor self.now r.scratches.items r.verdicts.items) }
        ensures factors { AreFactors self.now }
    {
        let scratches = scratches(alloc, self.programs.as_slice(), self.which.as_slice())?;
        let verdicts = blanks(alloc, self.which.len())?;
        Ok(Room {
            scratches,
            verdicts,
        })
    }

    /// Fills in the verdict of each factor on a row in range, and returns the sign of their product. Allocates nothing and refuses
    /// nothing.
    pub fn verdicts(&self, room: &mut Room, row: &Row) -> Sign
        requires room { IsRoomFor self.now room.old.scratches.items room.old.verdicts.items }
        requires range { IsInRangeOf self.now.pred row.now }
        ensures due { (ps : List PredOf) → AreProgramsAt self.now.programs self.now.which ps
            → AreDue ps (row_of self.now.pred.shape.sites self.now.pred.shape.vars row.now) room.new.verdicts.items }
        ensures sign { sign_number result ≡ multiplied_numbers (numbers_of room.new.verdicts.items) }
        ensures room { IsRoomFor self.now room.new.scratches.items room.new.verdicts.items }
    {
        product_row(
            &self.programs,
            self.which.as_slice(),
            room.scratches.as_mut_slice(),
            row,
            room.verdicts.as_mut_slice(),
        )
    }
}
