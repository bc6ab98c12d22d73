//! Files of the C subset: how they are read, written, called and emitted.
use ln_base::NoMemory;
use ln_cemit::emit;
use ln_code::Programs;
use ln_csyn::{CFile, CStop, read_c, write_c};
use std::alloc::Global;

#[test]
fn calls_of_c_have_their_types(_rt: HostRuntime) {
    let _: fn(Global, &[u8]) -> Result<CFile, CStop> = read_c;
    let _: fn(Global, &CFile) -> Result<Vec<u8>, NoMemory> = write_c;
    let _: fn(Global, &Programs) -> Result<Vec<u8>, NoMemory> = emit;
}
