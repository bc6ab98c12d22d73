//! Sources and listings that tests of several crates use, and what the sources compile to.
use ln_base::limits::MOST_SOURCE;
use ln_base::{NoMemory, Span};
use ln_compile::{Compiled, Refusal, compile};
use std::alloc::Global;

/// The orientation of three points of the plane.
pub const ORIENT: &str = "site point { x: -1000 .. 1000; y: -1000 .. 1000; }
predicate orient(p: point, q: point, r: point) { sign (p.x - r.x)*(q.y - r.y) - (p.y - r.y)*(q.x - r.x); }
";

/// The difference of the squares of two numbers.
pub const SQUARES: &str =
    "site num { t: -10 .. 10; }\npredicate s(a: num, b: num) { sign a.t^2 - b.t^2; }\n";

/// The orientation of three points of a large plane.
pub const WIDE: &str =
    "site point { x: -1099511627776 .. 1099511627776; y: -1099511627776 .. 1099511627776; }
predicate orient(p: point, q: point, r: point) { sign (p.x - r.x)*(q.y - r.y) - (p.y - r.y)*(q.x - r.x); }
";

/// A number less one that is far away.
pub const FAR: &str = "site num { t: -10 .. 10; } predicate far(a: num) { sign a.t - 4294967297; }";

/// A sum without a filter: its numbers would be divided by 2^288.
pub const DEEP: &str = "site num { t: -10 .. 10; }
predicate nf(a: num) { let z = 0*170141183460469231731687303715884105727; let y = z*z*z; sign a.t + y; }
";

/// A record of the orientation, of three points in one place, the second before the first.
pub const ONE_POINT: &str = "2,5,5,1,5,5,3,5,5\n";

/// Its trace.
pub const ONE_POINT_TRACE: &str =
    "trace 1\nrow 1\nat : 0\nat 3^1 : 0\nat 2^1 : 0\nat 1^1 : 0\nat 1^1 2^1 : -1\nsign -\n";

/// A listing of the two squares, version 1, without the first line.
pub const BLOCKS: &str = "predicate s
filter
input 0 0 10 0
set 64
get 64 0 10 0
get 64 0 10 0
mul 0 100 0
input 1 0 10 0
set 64
get 64 0 10 0
get 64 0 10 0
mul 0 100 0
sub 0 200 0
decide
block 0
input 0 10
input 0 10
mul64 100
input 1 10
input 1 10
mul64 100
sub64 200
end
block 1 0^1
push 2 2
input 0 10
mul64 20
end
block 2 0^2
push 1 1
end
block 3 1^1
push -2 2
input 1 10
mul64 20
end
block 4 1^2
push -1 1
end
order 0 1 : 0 1 2
order 1 0 : 0 3 4
done
";

/// The same, version 2.
pub const RANGES: &str = "predicate s
filter
input 0 0 10 0
set 64
get 64 0 10 0
get 64 0 10 0
mul 0 100 0
input 1 0 10 0
set 64
get 64 0 10 0
get 64 0 10 0
mul 0 100 0
sub 0 200 0
decide
block 0
input 0 -10 10
input 0 -10 10
mul64 -100 100
input 1 -10 10
input 1 -10 10
mul64 -100 100
sub64 -200 200
end
block 1 0^1
push 2 2 2
input 0 -10 10
mul64 -20 20
end
block 2 0^2
push 1 1 1
end
block 3 1^1
push -2 -2 -2
input 1 -10 10
mul64 -20 20
end
block 4 1^2
push -1 -1 -1
end
order 0 1 : 0 1 2
order 1 0 : 0 3 4
done
";

/// Compiles a source. One that is too long counts as one without grammar.
pub fn compile_text(alloc: Global, source: &str) -> Result<Compiled, Refusal> {
    let bytes = source.as_bytes();
    if bytes.len() > MOST_SOURCE {
        return Err(Refusal::Syntax(Span { start: 0, end: 0 }));
    }
    compile(alloc, bytes)
}

/// Returns a source, compiled; none where it is refused.
pub fn compiled(alloc: Global, source: &str) -> Result<Option<Compiled>, NoMemory> {
    match compile_text(alloc, source) {
        Ok(c) => Ok(Some(c)),
        Err(Refusal::NoMemory(e)) => Err(e),
        Err(_) => Ok(None),
    }
}
