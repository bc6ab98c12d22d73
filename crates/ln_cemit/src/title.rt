//! Makes the names of the emitted functions from the name of a predicate.
ghost use Rattle.std.specs.Prelude.{◌≡◌, ◌++◌, IfOk};
ghost use Rattle.ln_cemit.specs.Names.{block_name, entry_name, filter_name};

use crate::entry::Entry;
use itoa::Buffer;
use ln_base::NoMemory;
use std::alloc::Global;

fn joined(alloc: Global, front: &[u8], name: &[u8]) -> Result<Vec<u8>, NoMemory>
    ensures { IfOk result (λ v. v.items ≡ front.now ++ name.now) }
{
    let mut title = front.to_vec(alloc)?;
    title.extend_from_slice(name)?;
    Ok(title)
}

/// `lf_NAME`.
pub(crate) fn filter_title(alloc: Global, name: &[u8]) -> Result<Vec<u8>, NoMemory>
    ensures { IfOk result (λ v. v.items ≡ filter_name name.now) }
{
    joined(alloc, b"lf_", name)
}

/// `lbN_NAME`.
pub(crate) fn block_title(alloc: Global, name: &[u8], number: usize) -> Result<Vec<u8>, NoMemory>
    ensures { IfOk result (λ v. v.items ≡ block_name name.now number) }
{
    let mut title = Vec::new(alloc);
    let mut buffer = Buffer::new();
    title.extend_from_slice(b"lb".as_slice())?;
    title.extend_from_slice(buffer.format(number as u64).as_bytes())?;
    title.push(b'_')?;
    title.extend_from_slice(name)?;
    Ok(title)
}

/// `ln_NAME`, `la_NAME` or `ls_NAME`.
pub(crate) fn call_title(alloc: Global, entry: Entry, name: &[u8]) -> Result<Vec<u8>, NoMemory>
    ensures { IfOk result (λ v. v.items ≡ entry_name entry name.now) }
{
    match entry {
        Entry::EveryRow => joined(alloc, b"ln_", name),
        Entry::Alternating => joined(alloc, b"la_", name),
        Entry::Symmetric => joined(alloc, b"ls_", name),
    }
}
