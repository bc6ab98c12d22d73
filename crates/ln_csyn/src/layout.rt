//! Lays a function out: a statement a line, indented by its braces, an empty line before the function, and no blank where two tokens
//! need none.
ghost use Rattle.std.specs.Prelude.{◌≡◌, ◌==◌, ◌++◌, ◌∷◌, [], List, ℕ, IfOk};
ghost use Rattle.ln_csyn.specs.Layout.{begun, deeper, ends_line, fuses, grown, indent, is_operator, is_tight, laid_at, next_spot, put_at, gap};
ghost use Rattle.ln_csyn.specs.Layout.{Lays, gap_depth, is_apart, is_spaced, spaced_around, start, turned, shallower};
ghost use Rattle.ln_csyn.specs.Spelling.{PutsTokens, spell_fun};
ghost use Rattle.ln_csyn.specs.Tree.{Fun};

use ln_base::NoMemory;
use ln_base::word::name_byte;

/// The facts that the layout knows of the bytes before a place: the last one, how many braces are open, whether the last token began a line,
/// whether it is a sign that clings to what follows, and whether the token is over.
#[derive(Clone, Copy)]
pub struct Spot {
    pub last: u8,
    pub depth: u8,
    pub first: bool,
    pub tight: bool,
    pub over: bool,
}

// Would these two bytes be one token, or might they begin one?
fn fuses(last: u8, b: u8) -> bool
    ensures { result ≡ fuses last b }
{
    (name_byte(last) && name_byte(b)) || ((last == b'=' || last == b'!') && b == b'=')
}

fn ends_line(b: u8) -> bool
    ensures { result ≡ ends_line b }
{
    b == b';' || b == b'{' || b == b'}'
}

fn operator(b: u8) -> bool
    ensures { result ≡ is_operator b }
{
    match b {
        b'+' | b'-' | b'*' | b'/' | b'<' | b'=' | b'>' | b'!' => true,
        _ => false,
    }
}

// The blank after each token.
fn ends_token(b: u8) -> bool
    ensures { result ≡ (b == 32) }
{
    b == b' '
}

// Is it a minus after a parenthesis, or the star of a pointer?
fn tight(last: u8, b: u8) -> bool
    ensures { result ≡ is_tight last b }
{
    (b == b'-' && last == b'(') || (b == b'*' && name_byte(last))
}

// Does an operator have its blank here?
fn spaced_around(spot: Spot, b: u8) -> bool
    ensures { result ≡ spaced_around spot b }
{
    (operator(b) && spot.last != b'(') || (operator(spot.last) && !spot.tight)
}

fn spaced(spot: Spot, b: u8) -> bool
    ensures { result ≡ is_spaced spot b }
{
    spot.last == b',' || b == b'{' || (b == b'(' && spot.first && name_byte(spot.last))
}

// Is a blank written before the byte?
fn apart(spot: Spot, b: u8) -> bool
    ensures { result ≡ is_apart spot b }
{
    fuses(spot.last, b) || spaced_around(spot, b) || spaced(spot, b)
}

// 64 braces are the most that a text of the subset opens.
fn deeper(depth: u8) -> u8
    ensures { result ≡ deeper depth }
{
    if depth < 64 { depth + 1 } else { depth }
}

fn shallower(depth: u8) -> u8
    ensures { result ≡ shallower depth }
{
    if depth == 0 { depth } else { depth - 1 }
}

// The number of open braces after the byte.
fn turned(depth: u8, b: u8) -> u8
    ensures { result ≡ turned depth b }
{
    if b == b'{' {
        deeper(depth)
    } else if b == b'}' {
        shallower(depth)
    } else {
        depth
    }
}

// The braces by which a line is indented that begins with the byte.
fn gap_depth(depth: u8, b: u8) -> u8
    ensures { result ≡ gap_depth depth b }
{
    if b == b'}' { shallower(depth) } else { depth }
}

fn put_indent(out: &mut Vec<u8>, depth: u8) -> Result<(), NoMemory>
    ensures { IfOk result (λ x. (r : List ℕ) → out.new.items ++ r ≡ out.old.items ++ indent depth r) }
{
    if depth == 0 {
        return Ok(());
    }
    out.extend_from_slice(b"  ".as_slice())?;
    put_indent(out, depth - 1)
}

// Writes what comes before a token: a new line, a blank or nothing.
fn put_gap(out: &mut Vec<u8>, spot: Spot, b: u8) -> Result<(), NoMemory>
    ensures { IfOk result (λ x. (r : List ℕ) → out.new.items ++ r ≡ out.old.items ++ gap spot b r) }
{
    if b == b'\n' {
        return Ok(());
    }
    if ends_line(spot.last) {
        out.push(b'\n')?;
        return put_indent(out, gap_depth(spot.depth, b));
    }
    if apart(spot, b) {
        out.push(b' ')?;
    }
    Ok(())
}

fn begun(spot: Spot, b: u8) -> Spot
    ensures { result ≡ begun spot b }
{
    Spot {
        last: b,
        depth: turned(spot.depth, b),
        first: ends_line(spot.last),
        tight: tight(spot.last, b),
        over: false,
    }
}

fn grown(spot: Spot, b: u8) -> Spot
    ensures { result ≡ grown spot b }
{
    Spot {
        last: b,
        depth: spot.depth,
        first: spot.first,
        tight: false,
        over: false,
    }
}

fn next_spot(spot: Spot, b: u8) -> Spot
    ensures { result ≡ next_spot spot b }
{
    if ends_token(b) {
        Spot {
            last: spot.last,
            depth: spot.depth,
            first: spot.first,
            tight: spot.tight,
            over: true,
        }
    } else if spot.over {
        begun(spot, b)
    } else {
        grown(spot, b)
    }
}

fn put_byte(out: &mut Vec<u8>, spot: Spot, b: u8) -> Result<(), NoMemory>
    ensures { IfOk result (λ x. (r : List ℕ) → out.new.items ++ r ≡ out.old.items ++ put_at spot b r) }
{
    if ends_token(b) {
        return Ok(());
    }
    if spot.over {
        put_gap(out, spot, b)?;
    }
    out.push(b)?;
    Ok(())
}

fn start() -> Spot
    ensures { result ≡ start }
{
    Spot {
        last: b';',
        depth: 0,
        first: false,
        tight: false,
        over: true,
    }
}

fn lay(out: &mut Vec<u8>, text: &[u8]) -> Result<(), NoMemory>
    ensures { IfOk result (λ x. (r : List ℕ) → out.new.items ++ r ≡ out.old.items ++ laid_at start text.now r) }
{
    let mut spot = start();
    'bytes: for b in text {
        put_byte(out, spot, *b)?;
        spot = next_spot(spot, *b);
    }
    Ok(())
}

/// Appends a function, laid out, whose tokens these are, each with a blank after it. A line feed is appended to the tokens.
pub fn lay_fun(out: &mut Vec<u8>, tokens: &mut Vec<u8>) -> Result<(), NoMemory>
    ensures { IfOk result (λ x. (f : Fun) → PutsTokens [] tokens.old.items (spell_fun f) → Lays out.old.items out.new.items (f ∷ [])) }
{
    tokens.push(b'\n')?;
    lay(out, tokens.as_slice())
}
