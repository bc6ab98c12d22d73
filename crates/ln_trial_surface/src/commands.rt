//! Watchers, generated rows and the program.
ghost use Rattle.std.specs.Prelude.{◌<◌};

use ln_base::NoMemory;
use ln_code::Row;
use ln_top::{Command, check_words, gen_row};
use ln_tree::Pred;
use ln_trial_programs::sample::{SQUARES, compiled};
use ln_watch::{DeciderWatch, FirstWatch, Line, SignWatch};
use rand_core::{Rng, SeedableRng};
use rand_pcg::Lcg128Xsl64;
use std::alloc::Global;
use std::test::Fail;

#[test]
fn calls_of_watchers_and_words_have_their_types(_rt: HostRuntime) {
    let _: fn() -> Line = Line::new;
    let _: fn(&mut Line) = Line::clear;
    let _: fn(&mut Line, &[u8]) = Line::put;
    let _: fn() -> SignWatch = SignWatch::new;
    let _: fn() -> DeciderWatch = DeciderWatch::new;
    let _: fn(u8) -> FirstWatch = FirstWatch::new;
    let _: fn(&[String]) -> Option<Command> = check_words;
    let _: fn(&Pred, &mut Lcg128Xsl64, u64) -> Row = gen_row;
}

// The index of the site at this place, of the low half of a word.
fn index_of(word: u64, place: u8) -> i64 {
    let low = (word % (1 << 32)) as u32;
    i64::from(low) * 8 + i64::from(place)
}

// The number that a word makes: from -lo on, this many.
fn number_of(word: u64, lo: u8, count: u8) -> i64
    requires { 0 < count }
{
    let n = (word % u64::from(count)) as u8;
    i64::from(n) - i64::from(lo)
}

// Is it the row of two sites of one number each that these words make, where the numbers are from -lo on and this many?
fn is_made_of(r: &Row, words: [u64; 4], lo: u8, count: u8) -> bool
    requires { 0 < count }
{
    r.index[0] == index_of(words[0], 0)
        && r.index[1] == index_of(words[2], 1)
        && r.values[0] == number_of(words[1], lo, count)
        && r.values[1] == number_of(words[3], lo, count)
}

// The next four words.
fn four(g: &mut Lcg128Xsl64) -> [u64; 4] {
    let (a, b) = (g.next_u64(), g.next_u64());
    let (c, d) = (g.next_u64(), g.next_u64());
    [a, b, c, d]
}

// Are the first two rows those of the first eight words? The numbers of row 1 are from the whole range, those of row 2 from -2 to 2.
fn are_made(p: &Pred) -> bool {
    let mut g = Lcg128Xsl64::seed_from_u64(7);
    let mut words = Lcg128Xsl64::seed_from_u64(7);
    let first = gen_row(p, &mut g, 1);
    let second = gen_row(p, &mut g, 2);
    let (one, two) = (four(&mut words), four(&mut words));
    is_made_of(&first, one, 10, 21)
        && is_made_of(&second, two, 2, 5)
        && g.next_u64() == words.next_u64()
}

// The same of the one predicate of a source.
fn are_made_for(alloc: Global, source: &str) -> Result<bool, NoMemory> {
    match compiled(alloc, source)? {
        Some(c) => {
            match c.table().preds.as_slice() {
                [p] => Ok(are_made(p)),
                _ => Ok(false),
            }
        }
        None => Ok(false),
    }
}

#[test]
fn a_row_is_made_of_one_word_a_column(rt: HostRuntime) -> Result<(), Fail> {
    assert!(rt; are_made_for(rt.alloc(), SQUARES)?);
    Ok(())
}

#[test]
fn a_line_has_what_was_put_after_it_was_cleared(rt: HostRuntime) {
    let mut line = Line::new();
    line.put(b"before");
    line.clear();
    line.put(b"signs");
    line.put(b" +");
    assert!(rt; line.bytes() == b"signs +".as_slice());
}
