//! The steps before the work: the source is read and compiled, the names are looked for, their predicates suit the command,
//! the further files are read.
ghost use Rattle.std.specs.Prelude.{◌≡◌, ◌≢◌, ◌≤◌, ◌<◌, All, Err, List, map, length, IfOk, IfErr, OnOk, string_bytes};
ghost use Rattle.std.specs.Prelude.{None, true, false};
ghost use Rattle.ln_base.specs.Limits.{most_file, most_source};
ghost use Rattle.ln_base.specs.Outside.{Rose};
ghost use Rattle.ln_tree.specs.Table.{PredOf, pred_of};
ghost use Rattle.ln_top.specs.Plan.{with_bytes};
ghost use Rattle.ln_top.specs.Signature.{Asks, signature_of};
ghost use Rattle.ln_top.specs.Steps.{Compiles, Each, Finds, Prepares, Reads};
ghost use Rattle.ln_top.specs.Frame.Source.{view};
ghost use Rattle.ln_top.specs.Frame.Given.{gives};
ghost use Rattle.ln_top.specs.Frame.Carried.{Halts};
ghost use Rattle.ln_compile.specs.Compiled.{AreNumbered};
ghost use Rattle.ln_top.specs.Frame.Signature.{AreAsked, KeepsFor, Refuses};
ghost use Rattle.ln_top.specs.Ready.{HasNumbers, IsReady};

use crate::frame::asked::Asked;
use crate::frame::ready::Ready;
use crate::frame::stop::{Stop, Why};
use crate::judges::three::one_of_three;
use crate::signs::graded::graded_first;
use crate::source::compiled;
use crate::target::alike::alike;
use crate::words::{Plan, asked};
use ln_base::limits::{MOST_FILE, MOST_SOURCE};
use ln_base::{Files, ReadStop, read_whole};
use ln_code::Program;
use ln_compile::Checked;
use std::alloc::Global;

// The bytes of a file within its limit.
fn file<F: Files>(alloc: Global, files: &mut F, name: &str, limit: usize) -> Result<Vec<u8>, Stop>
    ensures told { F.told files.new ≡ F.told files.old }
    ensures ok { IfOk result (λ v. Reads (F.told files.old) limit name.now (gives v.items)) }
    ensures err { IfErr result (Halts (Reads (F.told files.old) limit name.now) (Rose (F.faults files.old) (F.faults files.new))) }
    ensures limit { IfOk result (λ v. length v.items ≤ limit) }
    ensures quiet { result ≢ Err Stop.Read → F.faults files.new ≡ F.faults files.old }
{
    match read_whole(alloc, files, name, limit) {
        Ok(bytes) => Ok(bytes),
        Err(ReadStop::Fault) => Err(Stop::Read),
        Err(ReadStop::TooLong) => Err(Stop::Tell(Why::TooLong)),
        Err(ReadStop::NoMemory(e)) => Err(Stop::Memory(e)),
    }
}

// The numbers of the names.
fn numbers(alloc: Global, c: &Checked, names: &[String]) -> Result<Vec<usize>, Stop>
    ensures ok { IfOk result (λ v. HasNumbers (map pred_of c.now.table.preds) (map string_bytes names.now) v.items) }
    ensures err { IfErr result (Halts (Each (Finds (map pred_of c.now.table.preds)) (map string_bytes names.now)) ⊥) }
    ensures count { IfOk result (λ v. length v.items ≡ length names.now) }
{
    let mut numbers = Vec::new(alloc);
    'names: for name in names {
        let Some(i) = c.find(name.as_str()) else {
            return Err(Stop::Tell(Why::NoPredicate));
        };
        numbers.push(i)?;
    }
    Ok(numbers)
}

// The bytes of the further files.
fn texts<F: Files>(alloc: Global, files: &mut F, names: &[String]) -> Result<Vec<Vec<u8>>, Stop>
    ensures told { F.told files.new ≡ F.told files.old }
    ensures ok { IfOk result (λ v. Each (Reads (F.told files.old) most_file) (map string_bytes names.now)
        (gives (map (λ t. t.items) v.items))) }
    ensures err { IfErr result (Halts (Each (Reads (F.told files.old) most_file) (map string_bytes names.now))
        (Rose (F.faults files.old) (F.faults files.new))) }
    ensures count { IfOk result (λ v. length v.items ≡ length names.now) }
    ensures quiet { result ≢ Err Stop.Read → F.faults files.new ≡ F.faults files.old }
{
    let mut texts = Vec::new(alloc);
    'names: for name in names {
        match file(alloc, files, name.as_str(), MOST_FILE) {
            Ok(text) => {
                texts.push(text)?;
            }
            Err(stop) => return Err(stop),
        }
    }
    Ok(texts)
}

// Goes on where the named predicates suit the command, or stops with `shape`; no program is kept.
fn shaped(suits: bool) -> Result<Option<Program>, Stop>
    ensures ok { OnOk result (suits ≡ true) }
    ensures kept { IfOk result (λ k. k ≡ None) }
    ensures err { IfErr result (λ s. (s ≡ Stop.Tell Why.Shape) × (suits ≡ false)) }
{
    if suits {
        Ok(None)
    } else {
        Err(Stop::Tell(Why::Shape))
    }
}

// Takes the step at which the named predicates are looked at together, and returns the program that is kept for the work.
fn suited(
    alloc: Global,
    asked: Asked,
    bytes: &[u8],
    c: &Checked,
    numbers: &[usize],
) -> Result<Option<Program>, Stop>
    requires within { All (λ i. i < length c.now.table.preds) numbers.now }
    requires short { length bytes.now ≤ most_source }
    ensures ok { OnOk result ((preds : List PredOf) → AreNumbered (map pred_of c.now.table.preds) numbers.now preds
        → AreAsked asked preds) }
    ensures kept { IfOk result (KeepsFor asked (map pred_of c.now.table.preds) numbers.now) }
    ensures err { IfErr result (λ s. (preds : List PredOf) → AreNumbered (map pred_of c.now.table.preds) numbers.now preds
        → Refuses asked bytes.now preds s) }
    ensures quiet { result ≢ Err Stop.Read }
{
    match asked {
        Asked::Nothing => Ok(None),
        Asked::SameArgs => shaped(alike(c.table().preds.as_slice(), numbers)),
        Asked::ThreeSites => shaped(one_of_three(c.table().preds.as_slice(), numbers)),
        Asked::FewStages => graded_first(alloc, bytes, c, numbers),
    }
}

// Takes the steps of a plan that come after its source was read and compiled: the numbers of its names, the program that is kept, its texts.
fn later<F: Files>(
    alloc: Global,
    files: &mut F,
    plan: Plan<'_>,
    bytes: &[u8],
    c: &Checked,
) -> Result<(Vec<usize>, Option<Program>, Vec<Vec<u8>>), Stop>
    requires read { Reads (F.told files.old) most_source plan.source.now (gives bytes.now) }
    requires short { length bytes.now ≤ most_source }
    requires compiles { Compiles bytes.now (gives (view c.now.table)) }
    ensures found { IfOk result (λ r. HasNumbers (map pred_of c.now.table.preds) (map string_bytes plan.entry.names.now) r.0.items) }
    ensures asked { IfOk result (λ r. (preds : List PredOf) → AreNumbered (map pred_of c.now.table.preds) r.0.items preds
        → Asks plan.entry.command preds) }
    ensures kept { IfOk result (λ r. KeepsFor (signature_of plan.entry.command).suits (map pred_of c.now.table.preds) r.0.items r.1) }
    ensures read { IfOk result (λ r. Each (Reads (F.told files.old) most_file) (map string_bytes plan.entry.files.now)
        (gives (map (λ t. t.items) r.2.items))) }
    ensures numbers { IfOk result (λ r. length r.0.items ≡ length plan.entry.names.now) }
    ensures texts { IfOk result (λ r. length r.2.items ≡ length plan.entry.files.now) }
    ensures err { IfErr result (Halts (Prepares (with_bytes plan.entry) (F.told files.old))
        (Rose (F.faults files.old) (F.faults files.new))) }
    ensures quiet { result ≢ Err Stop.Read → F.faults files.new ≡ F.faults files.old }
{
    let numbers = match numbers(alloc, c, plan.names) {
        Ok(numbers) => numbers,
        Err(stop) => return Err(stop),
    };
    let kept = match suited(alloc, asked(plan.command), bytes, c, &numbers) {
        Ok(kept) => kept,
        Err(stop) => return Err(stop),
    };
    match texts(alloc, files, plan.files) {
        Ok(texts) => Ok((numbers, kept, texts)),
        Err(stop) => {
            drop(kept);
            Err(stop)
        }
    }
}

/// Takes the steps of a plan.
pub fn prepare<F: Files>(alloc: Global, files: &mut F, plan: Plan<'_>) -> Result<Ready, Stop>
    ensures ok { IfOk result (λ r. IsReady (with_bytes plan.entry) (F.told files.old) r) }
    ensures err { IfErr result (Halts (Prepares (with_bytes plan.entry) (F.told files.old))
        (Rose (F.faults files.old) (F.faults files.new))) }
    ensures kept { IfOk result (λ r. KeepsFor (signature_of plan.entry.command).suits (map pred_of r.compiled.table.preds) r.numbers.items r.kept) }
    ensures numbers { IfOk result (λ r. length r.numbers.items ≡ length plan.entry.names.now) }
    ensures texts { IfOk result (λ r. length r.texts.items ≡ length plan.entry.files.now) }
    ensures quiet { result ≢ Err Stop.Read → F.faults files.new ≡ F.faults files.old }
{
    let bytes = match file(alloc, files, plan.source, MOST_SOURCE) {
        Ok(bytes) => bytes,
        Err(stop) => return Err(stop),
    };
    let compiled = match compiled(alloc, &bytes) {
        Ok(compiled) => compiled,
        Err(stop) => return Err(stop),
    };
    match later(alloc, files, plan, &bytes, &compiled) {
        Ok((numbers, kept, texts)) => Ok(Ready {
            compiled,
            numbers,
            kept,
            texts,
        }),
        Err(stop) => {
            drop(compiled);
            Err(stop)
        }
    }
}
