//! The rows that `gen` makes of a generator's words.
ghost use Rattle.std.specs.Prelude.{◌≡◌, ◌+◌, ◌<◌, ◌≤◌, ◌≤ℤ◌, ◌<ℤ◌, ◌^◌, neg_ℤ, pos, true, length};
ghost use Rattle.std.specs.List.{list_all};
ghost use Rattle.rand_pcg.specs.Pcg.{pcg64};
ghost use Rattle.ln_tree.specs.Row.{InRange};
ghost use Rattle.ln_tree.specs.Variables.{has_range, is_laid_out};
ghost use Rattle.ln_code.specs.RowOf.{row_of, IsZeroPast};
ghost use Rattle.ln_rows.specs.Record.{columns};
ghost use Rattle.ln_top.specs.Signs.GenRow.{words, past, index_by, value_by, low_part, high_part, low_end, high_end};
ghost use Rattle.ln_top.specs.Signs.GenRow.{variable_by, row_by, IsMade};

use ln_code::Row;
use ln_tree::layout::starts_site;
use ln_tree::{Pred, Shape, VarInfo};
use rand_core::utils::NextWord;
use rand_pcg::Lcg128Xsl64;

// The index of the site at a place, by the next word.
fn next_index(g: &mut Lcg128Xsl64, place: usize) -> i64
    requires { place < 8 }
    ensures index { result ≡ index_by place (pcg64 g.old).0 }
    ensures past { g.new ≡ (pcg64 g.old).1 }
{
    let word = g.next_word();
    (word % (1 << 32) * 8 + place as u64) as i64
}

// The part of a range from -2 to 2, empty where its first end is above its second.
fn part(lo: i64, hi: i64) -> (i64, i64)
    ensures low { result.0 ≡ low_part lo }
    ensures high { result.1 ≡ high_part hi }
{
    let low = if lo < -2 { -2 } else { lo };
    let high = if 2 < hi { 2 } else { hi };
    (low, high)
}

// The ends between which a variable's value lies on row n.
fn ends(n: u64, lo: i64, hi: i64) -> (i64, i64)
    ensures low { result.0 ≡ low_end n lo hi }
    ensures high { result.1 ≡ high_end n lo hi }
{
    let (low, high) = part(lo, hi);
    if n % 2 == 0 && low <= high {
        (low, high)
    } else {
        (lo, hi)
    }
}

// A number from lo to hi, by a word.
fn between(lo: i64, hi: i64, word: u64) -> i64
    requires order { lo ≤ℤ hi }
    requires size { neg_ℤ (pos (2 ^ 63)) <ℤ lo }
    ensures { result ≡ value_by lo hi word }
{
    let offset = word % (hi.abs_diff(lo) + 1);
    (i128::from(lo) + i128::from(offset)) as i64
}

// The value of a variable on row n, by the next word.
fn next_value(g: &mut Lcg128Xsl64, n: u64, i: &VarInfo) -> i64
    requires { has_range i.now ≡ true }
    ensures value { result ≡ variable_by n i.now (pcg64 g.old).0 }
    ensures past { g.new ≡ (pcg64 g.old).1 }
{
    let word = g.next_word();
    let (lo, hi) = ends(n, i.lo, i.hi);
    between(lo, hi, word)
}

// Row n over these variables, by a word for each column.
fn fill(vars: &[VarInfo], g: &mut Lcg128Xsl64, n: u64) -> Row
    requires few_vars { length vars.now ≤ 168 }
    requires few_sites { length (columns vars.now) ≤ length vars.now + 5 }
    requires ranges { list_all has_range vars.now ≡ true }
    ensures made { IsMade n vars.now g.old result }
    ensures past { g.new ≡ past (length (columns vars.now)) g.old }
{
    let mut row = Row {
        index: [0; 5],
        values: [0; 168],
    };
    let mut site = 0usize;
    'vars: for (v, i) in vars.iter().enumerate() {
        if starts_site(i) {
            row.index[site] = next_index(g, site);
            row.values[v] = next_value(g, n, i);
            site += 1;
        } else {
            row.values[v] = next_value(g, n, i);
        }
    }
    row
}

// The variables of a shape, with what its type keeps of them.
fn laid_out(shape: &Shape) -> &[VarInfo]
    ensures vars { result.now ≡ shape.now.vars }
    ensures laid { is_laid_out shape.now.sites shape.now.vars ≡ true }
{
    shape.vars.as_slice()
}

/// The row that `gen` makes as row `n` from the generator's next words, one for each column, in order. It is in range, and the generator
/// is then just past these words. Places past those of the predicate are 0. Allocates nothing.
pub fn gen_row(p: &Pred, g: &mut Lcg128Xsl64, n: u64) -> Row
    ensures row { row_of p.now.shape.sites p.now.shape.vars result
        ≡ row_by n p.now.shape.vars (words (length (columns p.now.shape.vars)) g.old) }
    ensures past { g.new ≡ past (length (columns p.now.shape.vars)) g.old }
    ensures in_range { InRange p.now.shape.sites p.now.shape.vars (row_of p.now.shape.sites p.now.shape.vars result) }
    ensures zero { IsZeroPast p.now.shape.sites (length p.now.shape.vars) result }
{
    let vars = laid_out(&p.shape);
    fill(vars, g, n)
}
