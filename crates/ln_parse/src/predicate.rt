//! Builds one predicate of a table from its item: its arguments, its lets and its sign expression.
ghost use Rattle.std.specs.Prelude.{◌≡◌, ◌<◌, true, [], length, map, IfOk};
ghost use Rattle.std.specs.List.{list_all};
ghost use Rattle.ln_syntax.specs.Raw.{items, text};
ghost use Rattle.ln_names.specs.Limits.{Each};
ghost use Rattle.ln_tree.specs.Names.{name_bytes};
ghost use Rattle.ln_tree.specs.Formula.{formula};
ghost use Rattle.ln_tree.specs.Variables.{is_laid_out};
ghost use Rattle.ln_tree.specs.Table.{TableOf, site_of, param_of, pred_of, pred_fits};
ghost use Rattle.ln_names.specs.Nodes.{LetsNodes, PredNodes};
ghost use Rattle.ln_names.specs.Rules.{scope};
ghost use Rattle.ln_parse.specs.Says.{LetsSay, PredSays, Says};
ghost use Rattle.ln_parse.specs.Ready.{ReadyLet, ReadyPred, ReadyValue, Declares, is_few};

use crate::expression::expression;
use crate::layout::{Layout, args, laid_out};
use crate::name::name_at;
use ln_base::{NoMemory, Seq, Span};
use ln_lex::Token;
use ln_names::Body as Nodes;
use ln_syntax::{Places, RawArg, RawItem, RawLet};
use ln_tree::{Expr, Name, Param, Pred, Shape, Site};
use std::alloc::Global;

/// A source: its bytes, their tokens and items, and the nodes of the items' expressions.
#[derive(Clone, Copy)]
pub struct Source<'a> {
    pub bytes: &'a [u8],
    pub ts: &'a [Token],
    pub items: &'a [RawItem],
    pub nodes: &'a [Nodes],
}

/// A source and what a predicate in it can speak of: the items before it, its arguments and its lets; and the nodes of its expressions.
#[derive(Clone, Copy)]
pub struct Scene<'a> {
    pub bytes: &'a [u8],
    pub ts: &'a [Token],
    pub items: &'a [RawItem],
    pub args: &'a [RawArg],
    pub lets: &'a [RawLet],
    pub nodes: &'a Nodes,
}

// The lets of a predicate, their names, and the expression of its sign.
#[derive(Drop)]
struct Body {
    lets: Seq<Expr>,
    let_names: Seq<Name>,
    root: Expr,
}

/// The predicate of this name, with the arguments and lets of the scene and this sign expression, in a table with these
/// site types and params.
pub fn predicate(
    alloc: Global,
    s: &Scene,
    sites: &[Site],
    params: &[Param],
    name: Span,
    root: Places,
) -> Result<Pred, NoMemory>
    requires ready { ReadyPred s.now.bytes.now s.now.ts.now (items s.now.items.now) name s.now.args.now s.now.lets.now root }
    requires nodes { PredNodes s.now.bytes.now s.now.ts.now (items s.now.items.now) s.now.args.now s.now.lets.now root s.now.nodes.now }
    requires declared { Declares s.now.bytes.now (items s.now.items.now) (map site_of sites.now) (map param_of params.now) }
    ensures says { IfOk result (λ p. (t : TableOf) → t.sites ≡ map site_of sites.now → t.params ≡ map param_of params.now →
        PredSays s.now.bytes.now s.now.ts.now (items s.now.items.now) t name s.now.args.now s.now.lets.now root (pred_of p)) }
    ensures fits { IfOk result (λ p. pred_fits sites.now params.now p ≡ true) }
{
    let args = args(alloc, s)?;
    let layout = laid_out(alloc, sites, params, args.as_slice())?;
    let body = body_of(alloc, s, root)?;
    let named = name_at(s.bytes, name);
    let shape = shape(named, layout);
    Ok(Pred {
        name: named,
        at: name,
        args,
        shape,
        lets: body.lets,
        let_names: body.let_names,
        root: body.root,
    })
}

// The parts between the braces of a predicate.
fn body_of(alloc: Global, s: &Scene, sign: Places) -> Result<Body, NoMemory>
    requires ready { Each (ReadyLet s.now.bytes.now s.now.ts.now (items s.now.items.now) s.now.args.now) [] s.now.lets.now }
    requires sign { ReadyValue s.now.bytes.now s.now.ts.now (scope (items s.now.items.now) s.now.args.now s.now.lets.now) sign }
    requires nodes { PredNodes s.now.bytes.now s.now.ts.now (items s.now.items.now) s.now.args.now s.now.lets.now sign s.now.nodes.now }
    requires args { length s.now.args.now < 256 }
    requires lets { length s.now.lets.now < 256 }
    requires few { list_all is_few (items s.now.items.now) ≡ true }
    ensures lets { IfOk result (λ b. LetsSay s.now.bytes.now s.now.ts.now (items s.now.items.now) s.now.args.now [] s.now.lets.now
        (map formula b.lets)) }
    ensures names { IfOk result (λ b. map name_bytes b.let_names ≡ map (λ l. text s.now.bytes.now l.name) s.now.lets.now) }
    ensures root { IfOk result (λ b. Says s.now.bytes.now s.now.ts.now (scope (items s.now.items.now) s.now.args.now s.now.lets.now)
        sign (formula b.root)) }
{
    let lets = lets(alloc, s)?;
    let let_names = let_names(alloc, s, s.lets)?;
    let root = expression(alloc, s.nodes.root.as_slice())?;
    Ok(Body {
        lets,
        let_names,
        root,
    })
}

fn shape(name: Name, layout: Layout) -> Shape
    requires { is_laid_out layout.sites layout.vars ≡ true }
    ensures name { name_bytes result.name ≡ name_bytes name }
    ensures same { (result.sites ≡ layout.sites) × (result.vars ≡ layout.vars) }
{
    Shape {
        name,
        sites: layout.sites,
        vars: layout.vars,
    }
}

fn lets(alloc: Global, s: &Scene) -> Result<Seq<Expr>, NoMemory>
    requires ready { Each (ReadyLet s.now.bytes.now s.now.ts.now (items s.now.items.now) s.now.args.now) [] s.now.lets.now }
    requires nodes { LetsNodes s.now.bytes.now s.now.ts.now (items s.now.items.now) s.now.args.now s.now.lets.now s.now.nodes.now.lets }
    requires args { length s.now.args.now < 256 }
    requires lets { length s.now.lets.now < 256 }
    requires few { list_all is_few (items s.now.items.now) ≡ true }
    ensures { IfOk result (λ xs. LetsSay s.now.bytes.now s.now.ts.now (items s.now.items.now) s.now.args.now [] s.now.lets.now
        (map formula xs)) }
{
    let lets = s.nodes.lets.as_slice();
    let mut values = Seq::new(alloc);
    'lets: for nodes in lets {
        values.push(expression(alloc, nodes.as_slice())?)?;
    }
    Ok(values)
}

#[tactic(auto, using(crate::proofs::Building::Lists::one_mapped, crate::proofs::Building::Lists::all_mapped, crate::proofs::Building::Loops::each_or))]
fn let_names(alloc: Global, s: &Scene, lets: &[RawLet]) -> Result<Seq<Name>, NoMemory>
    requires { Each (ReadyLet s.now.bytes.now s.now.ts.now (items s.now.items.now) s.now.args.now) [] lets.now }
    ensures { IfOk result (λ xs. map name_bytes xs ≡ map (λ l. text s.now.bytes.now l.name) lets.now) }
{
    let mut names = Seq::new(alloc);
    'lets: for l in lets {
        names.push(name_at(s.bytes, l.name))?;
    }
    Ok(names)
}
