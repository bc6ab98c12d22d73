//! The stack and the locals of a block or a filter.
ghost use Rattle.std.specs.Prelude.{◌≡◌, ◌<◌, ◌++◌, ◌∷◌, [], IfOk, MatchOption, None, Some, get_or, length, replicate, slice_set};
ghost use Rattle.ln_verify.specs.Values.{PushedOnto};

use ln_base::NoMemory;
use std::alloc::Global;

/// The values on the stack, the last one on top, and the locals. A local that isn't set is none.
#[derive(Drop)]
pub struct Stack<T> {
    pub values: Vec<T>,
    pub locals: Vec<Option<T>>,
}

// 256 locals, none of which is set.
fn no_locals<T: Drop>(alloc: Global) -> Result<Vec<Option<T>>, NoMemory>
    ensures { IfOk result (λ v. v.items ≡ replicate 256 None) }
{
    let mut locals = Vec::new(alloc);
    'locals: for _i in 0..256usize {
        locals.push(None)?;
    }
    Ok(locals)
}

/// The stack before the first line.
pub fn empty<T: Drop>(alloc: Global) -> Result<Stack<T>, NoMemory>
    ensures values { IfOk result (λ s. s.values.items ≡ []) }
    ensures locals { IfOk result (λ s. s.locals.items ≡ replicate 256 None) }
{
    let locals = no_locals(alloc)?;
    Ok(Stack {
        values: Vec::new(alloc),
        locals,
    })
}

/// Takes the last value off a stack.
pub fn pop<T>(values: &mut Vec<T>) -> Option<T>
    ensures { MatchOption result (values.old.items ≡ []) (λ x. values.old.items ≡ values.new.items ++ x ∷ []) }
{
    values.pop()
}

/// Pushes a value onto a stack, if there is one and the stack has fewer than 2,048.
pub fn push<T: Drop>(values: &mut Vec<T>, v: Option<T>) -> Result<bool, NoMemory>
    ensures { IfOk result (λ ok. PushedOnto v values.old.items ok values.new.items) }
{
    let Some(x) = v else {
        return Ok(false);
    };
    if values.len() >= 2048 {
        return Ok(false);
    }
    values.push(x)?;
    Ok(true)
}

/// A value into a local.
pub fn put<T: Drop>(locals: &mut Vec<Option<T>>, j: usize, x: T)
    requires { j < length locals.old.items }
    ensures { locals.new.items ≡ slice_set locals.old.items j (Some x) }
{
    locals[j] = Some(x);
}

/// The value of a local, if it is set.
pub fn local<T>(locals: &[Option<T>], j: usize) -> Option<&T>
    requires { j < length locals.now }
    ensures { MatchOption result (get_or locals.now j None ≡ None) (λ x. get_or locals.now j None ≡ Some x.now) }
{
    locals[j].as_ref()
}
