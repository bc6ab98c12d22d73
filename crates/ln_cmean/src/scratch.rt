//! What a call does with the declarations: it looks a name up, and makes declarations visible and invisible.
ghost use Rattle.std.specs.Prelude.{◌≡◌, ℕ, List, ◌∷◌, ◌+◌, ◌-◌, ◌≤◌, ◌<◌, length, take, vec_len, None, slice_get, Some};
ghost use Rattle.ln_csyn.specs.Meaning.{find, number_in, Seen};
ghost use Rattle.ln_csyn.specs.Meaning as m;
ghost use Rattle.ln_cmean.specs.Room.{HasRoom, IsNoSmaller, IsExtended};
ghost use Rattle.ln_cmean.specs.Slots.{seen};
ghost use Rattle.ln_cmean.specs.Answered.{answered};

use crate::names::{bucket, is_named};
use crate::number::{Fault, Number};
use crate::slot::Slot;
use crate::stack::Stack;
use indexmap::IndexSet;
use ln_csyn::CType;

/// Room for the declarations that a call of a file's function makes visible, and the names of the file's functions.
#[derive(Drop)]
pub struct CScratch<'a> {
    pub(crate) stack: Stack<'a>,
    pub(crate) funs: IndexSet<&'a [u8]>,
}

fn number_of(slot: &Slot<'_>) -> Result<Number, Fault>
    ensures { (k : m.Counts) → answered result k ≡ number_in slot.now.number slot.now.kind k }
{
    match slot.number {
        Some(number) => Ok(Number {
            kind: slot.kind,
            number,
        }),
        None => Err(Fault::Here),
    }
}

fn slot_at<'s, 'a>(s: &'s Stack<'a>, n: usize) -> &'s Slot<'a>
    requires { n < vec_len s.now.slots }
    ensures { slice_get s.now.slots.items n ≡ Some result.now }
{
    &s.slots[n]
}

/// The innermost declaration of the name.
pub fn look_up(s: &Stack<'_>, name: &[u8]) -> Result<Number, Fault>
    ensures { (k : m.Counts) → answered result k ≡ find (seen s.now) name.now k }
{
    let at = bucket(name, s.tops.len());
    let mut n = s.tops[at];
    'slots: while n > s.base {
        let slot = slot_at(s, n - 1);
        if is_named(slot.name, name) {
            return number_of(slot);
        }
        n = slot.below;
    }
    Err(Fault::Here)
}

/// A declaration that has no number yet.
pub fn open<'a>(s: &mut Stack<'a>, kind: CType, name: &'a [u8])
    requires { HasRoom s.old 1 }
    ensures seen { seen s.new ≡ record { name = name.now; kind = kind; number = None } ∷ seen s.old }
    ensures front { IsExtended s.old s.new }
    ensures room { length s.new.slots.items ≡ length s.old.slots.items + 1 }
    ensures capacity { IsNoSmaller s.old s.new }
{
    let at = bucket(name, s.tops.len());
    let below = s.tops[at];
    let _ = s.slots.push(Slot {
        name,
        kind,
        number: None,
        bucket: at,
        below,
    });
    s.tops[at] = s.slots.len();
}

/// The innermost declaration has this number now.
pub fn settle(s: &mut Stack<'_>, number: i128)
    ensures seen { (d : Seen) (ds : List Seen) → seen s.old ≡ d ∷ ds →
        seen s.new ≡ record { name = d.name; kind = d.kind; number = Some number } ∷ ds }
    ensures before { (n : ℕ) → n < length s.old.slots.items → take n s.new.slots.items ≡ take n s.old.slots.items }
    ensures room { length s.new.slots.items ≡ length s.old.slots.items }
    ensures base { s.new.base ≡ s.old.base }
    ensures capacity { IsNoSmaller s.old s.new }
{
    let n = s.slots.len();
    if n > 0 {
        s.slots[n - 1].number = Some(number);
    }
}

// The innermost declaration goes.
fn close(s: &mut Stack<'_>)
    ensures slots { s.new.slots.items ≡ take (length s.old.slots.items - 1) s.old.slots.items }
    ensures base { s.new.base ≡ s.old.base }
    ensures capacity { IsNoSmaller s.old s.new }
{
    if let Some(slot) = s.slots.pop() {
        s.tops[slot.bucket] = slot.below;
    }
}

/// Only the first declarations stay.
pub fn leave(s: &mut Stack<'_>, slots: usize)
    ensures slots { s.new.slots.items ≡ take slots s.old.slots.items }
    ensures base { s.new.base ≡ s.old.base }
    ensures capacity { IsNoSmaller s.old s.new }
{
    'slots: while s.slots.len() > slots {
        close(s);
    }
}
