//! Decides whether exchanging neighbouring sites keeps a polynomial or turns it into its opposite.
ghost use Rattle.std.specs.Prelude.{◌≡◌, ◌<◌, ◌≤◌, ◌+◌, ◌^◌, ◌*ℤ◌, ℕ, suc, IfNone, IfSome, IsTrue, false, true, All, Contains, length, unsigned_abs};
ghost use Rattle.std.specs.Bool.{Decides};
ghost use Rattle.ln_tree.specs.Exps.{IsRising, exponent};
ghost use Rattle.ln_tree.specs.Variables.{is_laid_out, same_site};
ghost use Rattle.ln_order.specs.Exchanged.{IsShift, first_of_site, is_of_site, partner_at, range_at, shift_of};
ghost use Rattle.ln_poly.specs.Sparse.{IsPoly};
ghost use Rattle.ln_stage.specs.Symmetry.{ArePartners, HasPartner, HasSymmetry, IsAbove, IsBelow, IsPartner};
ghost use Rattle.ln_stage.specs.Symmetry.{LacksSymmetry, PairNeverTurns, PairTurns, turn_of};

use ln_poly::Poly;
use ln_tree::{Exps, Shape, VarInfo, exponent_of};

/// What exchanging two sites of a predicate does to its polynomial, and so to its sign: it keeps it, or it gives the opposite.
#[derive(Clone, Copy)]
pub enum Symmetry {
    Symmetric,
    Alternating,
}

fn is_of(i: &VarInfo, j: u8) -> bool
    ensures { result ≡ same_site i.now.site (Some j) }
{
    match i.site {
        Some(s) => s == j,
        None => false,
    }
}

// Whether v is a variable of site j.
fn is_of_site(vars: &[VarInfo], j: u8, v: usize) -> bool
    ensures { result ≡ is_of_site vars.now j v }
{
    match vars.get(v) {
        Some(i) => is_of(i, j),
        None => false,
    }
}

// The ends of the range of a variable.
fn range_at(vars: &[VarInfo], v: usize) -> (i64, i64)
    ensures { result ≡ range_at vars.now v }
{
    match vars.get(v) {
        Some(i) => (i.lo, i.hi),
        None => (0, 0),
    }
}

fn same_range(a: (i64, i64), b: (i64, i64)) -> bool
    ensures { Decides result (a ≡ b) }
{
    a.0 == b.0 && a.1 == b.1
}

// The first variable of site j.
fn first_of_site(vars: &[VarInfo], j: u8) -> usize
    ensures is { result ≡ first_of_site vars.now j }
    ensures within { result ≤ length vars.now }
{
    'variables: for v in 0..vars.len() {
        if is_of_site(vars, j, v) {
            return v;
        }
    }
    vars.len()
}

// How many variables after that of site j the first of site j + 1 is.
fn shift_of(vars: &[VarInfo], j: u8) -> usize
    requires site { j < 255 }
    ensures is { result ≡ shift_of vars.now j }
    ensures within { result ≤ length vars.now }
{
    let next = first_of_site(vars, j + 1);
    let here = first_of_site(vars, j);
    next.saturating_sub(here)
}

// Whether the variable of site j, if v is one, has its partner d variables after it.
fn has_above(vars: &[VarInfo], j: u8, d: usize, v: usize) -> bool
    requires site { j < 255 }
    requires room { v + d < 2 ^ 32 }
    ensures { Decides result (IsAbove vars.now j d v) }
{
    if !is_of_site(vars, j, v) {
        return true;
    }
    if !is_of_site(vars, j + 1, v + d) {
        return false;
    }
    same_range(range_at(vars, v + d), range_at(vars, v))
}

// Whether the variable of site j + 1, if v is one, has its partner d variables before it.
fn has_below(vars: &[VarInfo], j: u8, d: usize, v: usize) -> bool
    requires site { j < 255 }
    ensures { Decides result (IsBelow vars.now j d v) }
{
    if !is_of_site(vars, j + 1, v) {
        return true;
    }
    if v < d {
        return false;
    }
    is_of_site(vars, j, v - d)
}

// Whether the coordinates of sites j and j + 1 are d variables apart, with the same ranges.
fn is_shift(vars: &[VarInfo], j: u8, d: usize) -> bool
    requires site { j < 255 }
    requires shift { d ≤ 168 }
    requires few { length vars.now ≤ 168 }
    ensures { Decides result (IsShift vars.now j d) }
{
    'variables: for v in 0..vars.len() {
        if !has_above(vars, j, d, v) {
            return false;
        }
        if !has_below(vars, j, d, v) {
            return false;
        }
    }
    true
}

// The partner of a variable.
fn partner(vars: &[VarInfo], j: u8, d: usize, v: usize) -> usize
    requires site { j < 255 }
    requires variable { v < 168 }
    requires shift { d ≤ 168 }
    ensures { result ≡ partner_at vars.now j d v }
{
    if is_of_site(vars, j, v) {
        v + d
    } else if is_of_site(vars, j + 1, v) {
        v.saturating_sub(d)
    } else {
        v
    }
}

// The exponent of a variable's partner.
fn partner_exponent(vars: &[VarInfo], j: u8, d: usize, t: &[(u8, u8)], v: usize) -> u8
    requires site { j < 255 }
    requires variable { v < 168 }
    requires shift { d ≤ 168 }
    requires within { partner_at vars.now j d v < 168 }
    requires rising { IsRising t.now }
    ensures { result ≡ exponent (partner_at vars.now j d v) t.now }
{
    exponent_of(t, partner(vars, j, d, v) as u8)
}

// Whether u has the exchanged exponents of t.
fn are_partners(vars: &[VarInfo], j: u8, d: usize, t: &[(u8, u8)], u: &[(u8, u8)]) -> bool
    requires site { j < 255 }
    requires shift { d ≤ 168 }
    requires few { length vars.now ≤ 168 }
    requires rising { IsRising t.now }
    requires other { IsRising u.now }
    requires within { (v : ℕ) → v < length vars.now → partner_at vars.now j d v < length vars.now }
    ensures { Decides result (ArePartners vars.now j d t.now u.now) }
{
    'variables: for v in 0..vars.len() {
        if exponent_of(u, v as u8) != partner_exponent(vars, j, d, t, v) {
            return false;
        }
    }
    true
}

// Whether a factor is the other, or its opposite.
fn factor_turns(y: Symmetry, a: i128, b: i128) -> bool
    requires { unsigned_abs a < 2 ^ 127 }
    ensures { Decides result (b ≡ turn_of y *ℤ a) }
{
    match y {
        Symmetry::Symmetric => b == a,
        Symmetry::Alternating => b == -a,
    }
}

// Whether u is a term's partner: it has the exchanged exponents, and the term's factor or its opposite.
fn is_partner(
    vars: &[VarInfo],
    j: u8,
    d: usize,
    y: Symmetry,
    t: &(Exps, i128),
    u: &(Exps, i128),
) -> bool
    requires site { j < 255 }
    requires shift { d ≤ 168 }
    requires few { length vars.now ≤ 168 }
    requires small { unsigned_abs t.now.1 < 2 ^ 127 }
    requires within { (v : ℕ) → v < length vars.now → partner_at vars.now j d v < length vars.now }
    ensures { Decides result (IsPartner vars.now j d y t.now u.now) }
{
    if !factor_turns(y, t.1, u.1) {
        return false;
    }
    are_partners(vars, j, d, t.0.pairs(), u.0.pairs())
}

// Whether a term has its partner among these.
fn has_partner(
    vars: &[VarInfo],
    j: u8,
    d: usize,
    y: Symmetry,
    t: &(Exps, i128),
    f: &[(Exps, i128)],
) -> bool
    requires site { j < 255 }
    requires shift { d ≤ 168 }
    requires few { length vars.now ≤ 168 }
    requires small { unsigned_abs t.now.1 < 2 ^ 127 }
    requires within { (v : ℕ) → v < length vars.now → partner_at vars.now j d v < length vars.now }
    ensures { Decides result (HasPartner vars.now j d y f.now t.now) }
{
    'terms: for u in f {
        if is_partner(vars, j, d, y, t, u) {
            return true;
        }
    }
    false
}

// Whether each term has its partner.
fn all_have_partners(vars: &[VarInfo], j: u8, d: usize, y: Symmetry, f: &[(Exps, i128)]) -> bool
    requires site { j < 255 }
    requires shift { d ≤ 168 }
    requires few { length vars.now ≤ 168 }
    requires form { IsPoly f.now }
    requires within { (v : ℕ) → v < length vars.now → partner_at vars.now j d v < length vars.now }
    ensures { Decides result (All (λ t. HasPartner vars.now j d y f.now t) f.now) }
{
    'terms: for t in f {
        if !has_partner(vars, j, d, y, t, f) {
            return false;
        }
    }
    true
}

// Whether exchanging sites j and j + 1, where these are of one type, keeps the polynomial or gives its opposite.
fn pair_turns(vars: &[VarInfo], j: u8, y: Symmetry, f: &Poly) -> bool
    requires site { j < 255 }
    requires few { length vars.now ≤ 168 }
    ensures yes { IsTrue result → PairTurns vars.now j y f.now }
    ensures no { (sites : ℕ) → is_laid_out sites vars.now ≡ true → suc j < sites → result ≡ false → PairNeverTurns vars.now j y f.now }
{
    let d = shift_of(vars, j);
    if !is_shift(vars, j, d) {
        return false;
    }
    all_have_partners(vars, j, d, y, f.terms())
}

// Whether exchanging any two neighbouring sites keeps the polynomial, or gives its opposite.
fn has_symmetry(s: &Shape, y: Symmetry, f: &Poly) -> bool
    ensures yes { IsTrue result → HasSymmetry s.now.sites s.now.vars y f.now }
    ensures no { result ≡ false → LacksSymmetry s.now.sites s.now.vars y f.now }
{
    let vars = s.vars.as_slice();
    'neighbours: for j in 1..s.sites {
        if !pair_turns(vars, j - 1, y, f) {
            return false;
        }
    }
    true
}

/// The symmetry of a polynomial over a shape: whether the sites are of one type and exchanging two of them keeps the polynomial, or gives its
/// opposite. It is none exactly where neither holds of each two neighbouring sites, so a polynomial with a symmetry is never refused. It
/// allocates nothing, and takes a step for each two terms.
pub fn symmetry_of(s: &Shape, f: &Poly) -> Option<Symmetry>
    ensures found { IfSome result (λ y. HasSymmetry s.now.sites s.now.vars y f.now) }
    ensures none { IfNone result ((y : Symmetry) → LacksSymmetry s.now.sites s.now.vars y f.now) }
{
    if has_symmetry(s, Symmetry::Alternating, f) {
        return Some(Symmetry::Alternating);
    }
    if has_symmetry(s, Symmetry::Symmetric, f) {
        return Some(Symmetry::Symmetric);
    }
    None
}
