//! The names of the columns of a predicate.
ghost use Rattle.std.specs.Prelude.{◌≡◌, [], IfOk, length, slice_index_or};
ghost use Rattle.std.specs.Option.{option_copied};
ghost use Rattle.ln_tree.specs.Names.{name_bytes};
ghost use Rattle.ln_tree.specs.Columns.{arg_columns, coord_column, site_columns};

use crate::items::{Arg, Coord, Site};
use crate::name::Name;
use crate::pred::Pred;
use crate::table::Table;
use ln_base::NoMemory;
use std::alloc::Global;

fn plain(alloc: Global, name: &Name) -> Result<Vec<u8>, NoMemory>
    ensures { IfOk result (λ v. v.items ≡ name_bytes name.now) }
{
    let mut text = Vec::new(alloc);
    text.extend_from_slice(name.bytes())?;
    Ok(text)
}

fn dotted(alloc: Global, site: &Name, coord: &Coord) -> Result<Vec<u8>, NoMemory>
    ensures { IfOk result (λ v. v.items ≡ coord_column site.now coord.now) }
{
    let mut text = Vec::new(alloc);
    text.extend_from_slice(site.bytes())?;
    text.push(b'.')?;
    text.extend_from_slice(coord.name.bytes())?;
    Ok(text)
}

// The name of column `i` of a site of this type, empty where it has no such column.
fn site_column(
    alloc: Global,
    name: &Name,
    site: Option<&Site>,
    i: usize,
) -> Result<Vec<u8>, NoMemory>
    ensures { IfOk result (λ v. v.items ≡ slice_index_or (site_columns name.now (option_copied site.entry)) i []) }
{
    if i == 0 {
        return plain(alloc, name);
    }
    let Some(site) = site else {
        return Ok(Vec::new(alloc));
    };
    match site.coords.get(i - 1) {
        Some(coord) => dotted(alloc, name, coord),
        None => Ok(Vec::new(alloc)),
    }
}

// The name of column `i` of an argument, empty where it has no such column.
fn arg_column(alloc: Global, t: &Table, arg: &Arg, i: usize) -> Result<Vec<u8>, NoMemory>
    ensures { IfOk result (λ v. v.items ≡ slice_index_or (arg_columns t.now.sites t.now.params arg.now) i []) }
{
    match arg {
        Arg::Site(name, k) => site_column(alloc, name, t.sites.get(usize::from(*k)), i),
        Arg::Param(k) => match t.params.get(usize::from(*k)) {
            Some(param) if i == 0 => plain(alloc, &param.name),
            _ => Ok(Vec::new(alloc)),
        },
    }
}

/// Returns how many columns an argument has: of a site its index and its coordinates, of a param one. It allocates nothing.
pub fn arg_width(t: &Table, arg: &Arg) -> usize
    ensures { result ≡ length (arg_columns t.now.sites t.now.params arg.now) }
{
    match arg {
        Arg::Site(_, k) => match t.sites.get(usize::from(*k)) {
            Some(site) => site.coords.as_slice().len() + 1,
            None => 1,
        },
        Arg::Param(k) => match t.params.get(usize::from(*k)) {
            Some(_) => 1,
            None => 0,
        },
    }
}

impl Pred {
    ghost use Rattle.std.specs.Prelude.{◌≡◌, [], IfOk, slice_index_or};
    ghost use Rattle.ln_tree.specs.Columns.{column_names};

    /// Returns the name of column `i` of the predicate, from 0: `p` for the index of a site p, `p.x` for its coordinate x, `c` for a
    /// param c. It is empty where there is no such column.
    pub fn column(&self, alloc: Global, t: &Table, i: usize) -> Result<Vec<u8>, NoMemory>
        ensures { IfOk result (λ v. v.items ≡ slice_index_or (column_names t.now.sites t.now.params self.now.args) i []) }
    {
        let mut left = i;
        'each: for arg in self.args.as_slice() {
            let width = arg_width(t, arg);
            if left < width {
                return arg_column(alloc, t, arg, left);
            }
            left -= width;
        }
        Ok(Vec::new(alloc))
    }
}
