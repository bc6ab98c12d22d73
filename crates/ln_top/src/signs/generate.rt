//! The work of `gen`: rows are made of a generator's words and run one at a time, and the watchers' lines go to Out.
ghost use Rattle.std.specs.Prelude.{◌≡◌, [], ◌∷◌, length};
ghost use Rattle.ln_algebra.specs.Orders.{BySmallest};
ghost use Rattle.ln_code.specs.Memory.{MadeFor};
ghost use Rattle.ln_rows.specs.Record.{columns};
ghost use Rattle.ln_top.specs.Frame.Carried.{CarriesOut, NoPart};
ghost use Rattle.ln_top.specs.Signs.Gen.{GenSaid, GenStep, draw, draws, gen_signature};
ghost use Rattle.ln_top.specs.Signs.GenRow.{past};
ghost use Rattle.ln_top.specs.Frame.Lines.{PutsAll, PutsOne};
ghost use Rattle.ln_top.specs.Frame.Ready.{IsReadyFor, StandsFor};
ghost use Rattle.ln_top.specs.Frame.Said.{OnConsole};
ghost use Rattle.ln_top.specs.Frame.Given.{Given};
ghost use Rattle.ln_top.specs.Target.Target.{Belongs, pred_in};
ghost use Rattle.ln_watch.specs.Panel.{states_of};

use crate::frame::ready::Ready;
use crate::frame::status::{Early, End};
use crate::signs::gen_row::gen_row;
use crate::signs::named::one_target;
use crate::signs::panel::Panel;
use crate::signs::watching::show;
use crate::target::Target;
use ln_base::{Console, Port};
use ln_code::Scratch;
use ln_watch::Watch;
use rand_core::SeedableRng;
use rand_pcg::Lcg128Xsl64;
use std::alloc::Global;

// Makes row n and runs it, and shows its verdict to the watchers. Returns whether all that was to be written was written.
fn put_row<C: Console>(
    con: &mut C,
    target: &Target<'_>,
    s: &mut Scratch,
    g: &mut Lcg128Xsl64,
    n: u64,
    panel: &mut Panel,
) -> bool
    requires made { MadeFor target.now.program s.old }
    requires rank { target.now.rank ≡ BySmallest }
    ensures puts { OnConsole C.faults C.shown con.old result con.new (PutsOne (GenStep (pred_in target.now))
        (states_of kind_of tally_of panel.old.watchers.items) (draw n g.old) (states_of kind_of tally_of panel.new.watchers.items)) }
    ensures past { g.new ≡ past (length (columns target.now.pred.shape.vars)) g.old }
    ensures made { MadeFor target.now.program s.new }
{
    let row = gen_row(target.pred(), g, n);
    let v = target.verdict(s, &row);
    show(con, Port::Out, panel, n, &v)
}

// Makes this many rows, from row 1, and runs them. Returns whether all that was to be written was written.
fn put_rows<C: Console>(
    con: &mut C,
    target: &Target<'_>,
    s: &mut Scratch,
    g: &mut Lcg128Xsl64,
    rows: u64,
    panel: &mut Panel,
) -> bool
    requires made { MadeFor target.now.program s.old }
    requires rank { target.now.rank ≡ BySmallest }
    ensures { OnConsole C.faults C.shown con.old result con.new (PutsAll (GenStep (pred_in target.now))
        (states_of kind_of tally_of panel.old.watchers.items) (draws rows 0 target.now.pred.shape.vars g.old)
        (states_of kind_of tally_of panel.new.watchers.items)) }
{
    let mut n = 0u64;
    'rows: while n < rows {
        n += 1;
        if !put_row(con, target, s, g, n, panel) {
            return false;
        }
    }
    true
}

// Writes the lines of rows that are made of a seed, and the last ones of the watchers.
fn put_made<C: Console>(
    con: &mut C,
    target: &Target<'_>,
    s: &mut Scratch,
    seed: u64,
    rows: u64,
    watchers: Vec<Box<dyn Watch>>,
) -> Result<End, Early>
    requires made { MadeFor target.now.program s.old }
    requires rank { target.now.rank ≡ BySmallest }
    requires belongs { Belongs target.now.rank target.now.pred target.now.program }
    ensures { (g : Given) → g.preds ≡ pred_in target.now ∷ []
        → OnConsole C.faults C.shown con.old result con.new
        (CarriesOut (GenSaid seed rows (states_of kind_of tally_of watchers.items) g) NoPart ⊥ ⊥) }
{
    let mut panel = Panel::new(watchers);
    let mut g = Lcg128Xsl64::seed_from_u64(seed);
    if !put_rows(con, target, s, &mut g, rows, &mut panel) {
        return Err(Early::Write);
    }
    match panel.close(con, Port::Out) {
        Ok(()) => Ok(End::Done),
        Err(_) => Err(Early::Write),
    }
}

// The same with memory to run the program in.
fn run_made<C: Console>(
    alloc: Global,
    con: &mut C,
    target: &Target<'_>,
    seed: u64,
    rows: u64,
    watchers: Vec<Box<dyn Watch>>,
) -> Result<End, Early>
    requires { target.now.rank ≡ BySmallest }
    ensures { (g : Given) → g.preds ≡ pred_in target.now ∷ []
        → OnConsole C.faults C.shown con.old result con.new
        (CarriesOut (GenSaid seed rows (states_of kind_of tally_of watchers.items) g) NoPart ⊥ ⊥) }
{
    let mut scratch = target.scratch(alloc)?;
    put_made(con, target, &mut scratch, seed, rows, watchers)
}

/// Makes this many rows of a seed, one at a time, and runs them; the lines of the watchers are written to Out. Allocates
/// before the first row alone.
pub fn work<C: Console>(
    alloc: Global,
    con: &mut C,
    ready: &Ready,
    seed: u64,
    rows: u64,
    watchers: Vec<Box<dyn Watch>>,
) -> Result<End, Early>
    requires { IsReadyFor gen_signature ready.now }
    ensures { (g : Given) → StandsFor ready.now g
        → OnConsole C.faults C.shown con.old result con.new
        (CarriesOut (GenSaid seed rows (states_of kind_of tally_of watchers.items) g) NoPart ⊥ ⊥) }
{
    let target = one_target(alloc, ready)?;
    run_made(alloc, con, &target, seed, rows, watchers)
}
