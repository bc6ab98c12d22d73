//! Builds the table of a source from its items, once these have no fault.
ghost use Rattle.std.specs.Prelude.{◌≡◌, true, [], map, IfOk};
ghost use Rattle.ln_syntax.specs.Raw.{items, text};
ghost use Rattle.ln_tree.specs.Table.{TableOf, coord_of, site_of, param_of, pred_of, table_of, pred_fits};
ghost use Rattle.ln_tree.specs.Whole.{is_whole};
ghost use Rattle.std.specs.List.{list_all};
ghost use Rattle.ln_names.specs.Limits.{Each};
ghost use Rattle.ln_names.specs.Nodes.{BodiesAre};
ghost use Rattle.ln_parse.specs.Ready.{ReadyCoord, ReadySite, ReadyParam, ReadyItem, ReadyFile, AreReady};
ghost use Rattle.ln_parse.specs.Says.{ranged, sites_said, params_said, PredsSay, ItemsSay};

use crate::name::name_at;
use crate::predicate::{Scene, Source, predicate};
use ln_base::{NoMemory, Seq, Span};
use ln_lex::Token;
use ln_names::Body;
use ln_names::resolve::end_of;
use ln_syntax::{RawCoord, RawItem, RawRange};
use ln_tree::{Coord, Param, Pred, Site, Table};
use std::alloc::Global;

/// The table of the items of a source.
pub fn build(
    alloc: Global,
    bytes: &[u8],
    ts: &[Token],
    its: &[RawItem],
    nodes: &[Body],
) -> Result<Table, NoMemory>
    requires ready { ReadyFile bytes.now ts.now (items its.now) }
    requires nodes { BodiesAre bytes.now ts.now (items its.now) nodes.now }
    requires whole { (t : TableOf) → ItemsSay bytes.now ts.now (items its.now) t → is_whole t ≡ true }
    ensures { IfOk result (λ t. ItemsSay bytes.now ts.now (items its.now) (table_of t.sites t.params t.preds)) }
{
    let sites = sites(alloc, bytes, its)?;
    let params = params(alloc, bytes, its)?;
    let source = Source {
        bytes,
        ts,
        items: its,
        nodes,
    };
    let preds = preds(alloc, &source, sites.as_slice(), params.as_slice())?;
    Ok(Table {
        sites,
        params,
        preds,
    })
}

fn sites(alloc: Global, bytes: &[u8], its: &[RawItem]) -> Result<Seq<Site>, NoMemory>
    requires { AreReady bytes.now (items its.now) }
    ensures { IfOk result (λ xs. map site_of xs ≡ sites_said bytes.now (items its.now)) }
{
    let mut sites = Seq::new(alloc);
    'items: for it in its {
        if let RawItem::Site(name, coords) = it {
            sites.push(site(alloc, bytes, *name, coords)?)?;
        }
    }
    Ok(sites)
}

#[tactic(auto, using(crate::proofs::Building::Loops::each_or))]
fn site(alloc: Global, bytes: &[u8], name: Span, raw: &[RawCoord]) -> Result<Site, NoMemory>
    requires { ReadySite bytes.now name raw.now }
    ensures { IfOk result (λ s. site_of s
        ≡ record { name = text bytes.now name; coords = map (λ c. ranged bytes.now c.name c.range) raw.now }) }
{
    let name = name_at(bytes, name);
    let mut coords = Seq::new(alloc);
    'coords: for c in raw {
        coords.push(coord(bytes, *c))?;
    }
    Ok(Site { name, coords })
}

fn coord(bytes: &[u8], c: RawCoord) -> Coord
    requires { ReadyCoord bytes.now c }
    ensures { coord_of result ≡ ranged bytes.now c.name c.range }
{
    Coord {
        name: name_at(bytes, c.name),
        lo: end_of(bytes, c.range.low),
        hi: end_of(bytes, c.range.high),
    }
}

#[tactic(auto, using(crate::proofs::Building::Said::said_more, crate::proofs::Building::Said::said_skip))]
fn params(alloc: Global, bytes: &[u8], its: &[RawItem]) -> Result<Seq<Param>, NoMemory>
    requires { AreReady bytes.now (items its.now) }
    ensures { IfOk result (λ xs. map param_of xs ≡ params_said bytes.now (items its.now)) }
{
    let mut params = Seq::new(alloc);
    'items: for it in its {
        if let RawItem::Param(name, range) = it {
            params.push(param(bytes, *name, *range))?;
        }
    }
    Ok(params)
}

fn param(bytes: &[u8], name: Span, range: RawRange) -> Param
    requires { ReadyParam bytes.now name range }
    ensures { param_of result ≡ ranged bytes.now name range }
{
    Param {
        name: name_at(bytes, name),
        lo: end_of(bytes, range.low),
        hi: end_of(bytes, range.high),
    }
}

fn preds(alloc: Global, s: &Source, sites: &[Site], params: &[Param]) -> Result<Seq<Pred>, NoMemory>
    requires ready { Each (ReadyItem s.now.bytes.now s.now.ts.now) [] (items s.now.items.now) }
    requires nodes { BodiesAre s.now.bytes.now s.now.ts.now (items s.now.items.now) s.now.nodes.now }
    requires sites { map site_of sites.now ≡ sites_said s.now.bytes.now (items s.now.items.now) }
    requires params { map param_of params.now ≡ params_said s.now.bytes.now (items s.now.items.now) }
    ensures fits { IfOk result (λ ps. list_all (pred_fits sites.now params.now) ps ≡ true) }
    ensures says { IfOk result (λ ps. (t : TableOf) → t.sites ≡ map site_of sites.now → t.params ≡ map param_of params.now →
        PredsSay s.now.bytes.now s.now.ts.now [] t (items s.now.items.now) (map pred_of ps)) }
{
    let its = s.items;
    let nodes = s.nodes;
    let mut preds = Seq::new(alloc);
    'items: for (i, it) in its.iter().enumerate() {
        if let RawItem::Pred(name, args, lets, root) = it {
            let scene = Scene {
                bytes: s.bytes,
                ts: s.ts,
                items: &its[..i],
                args,
                lets,
                nodes: &nodes[i],
            };
            preds.push(predicate(alloc, &scene, sites, params, *name, *root)?)?;
        }
    }
    Ok(preds)
}
