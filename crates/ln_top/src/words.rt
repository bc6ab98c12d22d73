//! The words, and what a command needs.
ghost use Rattle.std.specs.Prelude.{◌≡◌, ◌≤◌, ◌+◌, map, option_map, string_bytes, IfSome};
ghost use Rattle.ln_top.specs.Plan.{HasForm, command_of, is_count, named_among, named_command, number_of_word, with_bytes};
ghost use Rattle.ln_top.specs.Plan.{gen_plan, gen_with, plan_behind, plan_for, plan_of};
ghost use Rattle.ln_top.specs.Signature.{form, signature_of};

use crate::frame::asked::Asked;
use ln_base::decimal::{all_digits, unsigned};
use std::slice::from_ref;

/// A command of the program.
#[derive(Clone, Copy)]
pub enum Command {
    /// `check FILE`: is the source accepted, and how many stages has each predicate?
    Check,
    /// `run FILE NAME ROWS`: the signs of a predicate on the records of a rows file.
    Run,
    /// `list FILE`: the listing of the compiled programs.
    List,
    /// `emit FILE`: C for the predicates.
    Emit,
    /// `verify FILE LISTING`: is a listing valid for the predicates?
    Verify,
    /// `graded FILE NAME ROWS`: the same as `run` by total degree first.
    Graded,
    /// `edges FILE NAME POINTS`: the ordered pairs of points that have every other point on the plus side of a predicate of three sites.
    Edges,
    /// `explain FILE NAME ROWS`: a trace of the stages of each row, up to the one that decides.
    Explain,
    /// `audit FILE NAME ROWS TRACE`: is a trace agreed by the predicate's polynomial and the records?
    Audit,
    /// `gen FILE NAME SEED COUNT`: this many rows are made of a seed, and the output is what watchers say of the signs of a predicate on them.
    Gen(u64, u64),
    /// `product FILE NAME NAME.. ROWS`: the signs of the product of two to eight predicates on the records of a rows file.
    Product,
}

/// The needs of a command: its source file, the names of predicates, further files.
#[derive(Clone, Copy)]
pub struct Plan<'a> {
    /// The name of the source file.
    pub source: &'a str,
    /// The names of predicates of the source.
    pub names: &'a [String],
    /// The names of further files.
    pub files: &'a [String],
    /// The command that is carried out with them.
    pub command: Command,
}

// The first word of a command, how many names and further files come after the source file, and what it asks of the named predicates.
#[derive(Clone, Copy)]
struct Signature {
    word: &'static str,
    least: usize,
    most: usize,
    files: usize,
    asks: Asked,
}

fn signature_of(command: Command) -> Signature
    ensures word { result.word.now ≡ (signature_of command).word }
    ensures least { result.least ≡ (form command).least }
    ensures most { result.most ≡ (form command).most }
    ensures files { result.files ≡ (form command).files }
    ensures asks { result.asks ≡ (signature_of command).suits }
    ensures small { result.most + result.files ≤ 16 }
    ensures ordered { result.least ≤ result.most }
{
    let (word, least, most, files, asks) = match command {
        Command::Check => ("check", 0, 0, 0, Asked::Nothing),
        Command::Run => ("run", 1, 1, 1, Asked::Nothing),
        Command::List => ("list", 0, 0, 0, Asked::Nothing),
        Command::Emit => ("emit", 0, 0, 0, Asked::Nothing),
        Command::Verify => ("verify", 0, 0, 1, Asked::Nothing),
        Command::Graded => ("graded", 1, 1, 1, Asked::FewStages),
        Command::Edges => ("edges", 1, 1, 1, Asked::ThreeSites),
        Command::Explain => ("explain", 1, 1, 1, Asked::Nothing),
        Command::Audit => ("audit", 1, 1, 2, Asked::Nothing),
        Command::Gen(..) => ("gen", 1, 1, 0, Asked::Nothing),
        Command::Product => ("product", 2, 8, 1, Asked::SameArgs),
    };
    Signature {
        word,
        least,
        most,
        files,
        asks,
    }
}

/// What a command asks of its named predicates.
pub fn asked(command: Command) -> Asked
    ensures { result ≡ (signature_of command).suits }
{
    signature_of(command).asks
}

// The command among these that a word names.
fn named_among(word: &str, commands: &[Command]) -> Option<Command>
    ensures { result ≡ named_among word.now commands.now }
{
    'commands: for command in commands {
        if word == signature_of(*command).word {
            return Some(*command);
        }
    }
    None
}

fn named_command(word: &str) -> Option<Command>
    ensures { result ≡ named_command word.now }
{
    let commands = [
        Command::Check,
        Command::Run,
        Command::Product,
        Command::List,
        Command::Emit,
        Command::Verify,
        Command::Graded,
        Command::Edges,
        Command::Explain,
        Command::Audit,
    ];
    named_among(word, &commands)
}

fn plan_for<'a>(command: Option<Command>, source: &'a str, rest: &'a [String]) -> Option<Plan<'a>>
    ensures is { option_map with_bytes result ≡ plan_for command source.now (map string_bytes rest.now) }
    ensures form { IfSome result (λ p. HasForm (with_bytes p)) }
{
    let command = command?;
    let signature = signature_of(command);
    let count = rest.len();
    if signature.least + signature.files <= count && count <= signature.most + signature.files {
        let behind = count - signature.files;
        Some(Plan {
            source,
            names: &rest[..behind],
            files: &rest[behind..],
            command,
        })
    } else {
        None
    }
}

// The number that a word of 1 to 18 digits is.
fn number(word: &str) -> Option<u64>
    ensures { result ≡ number_of_word word.now }
{
    let digits = word.as_bytes();
    if all_digits(digits) && digits.len() <= 18 {
        Some(unsigned(digits) as u64)
    } else {
        None
    }
}

fn is_count(n: u64) -> bool
    ensures { result ≡ is_count n }
{
    1 <= n && n <= 1_000_000
}

// The plan of `gen`, where there are a seed and a count.
fn gen_with<'a>(
    source: &'a str,
    name: &'a String,
    seed: Option<u64>,
    count: Option<u64>,
) -> Option<Plan<'a>>
    ensures is { option_map with_bytes result ≡ gen_with source.now (string_bytes name.now) seed count }
    ensures form { IfSome result (λ p. HasForm (with_bytes p)) }
{
    let seed = seed?;
    let count = count?;
    if is_count(count) {
        Some(Plan {
            source,
            names: from_ref(name),
            files: &[],
            command: Command::Gen(seed, count),
        })
    } else {
        None
    }
}

// The plan of the words after `gen`.
fn gen_plan<'a>(source: &'a str, rest: &'a [String]) -> Option<Plan<'a>>
    ensures is { option_map with_bytes result ≡ gen_plan source.now (map string_bytes rest.now) }
    ensures form { IfSome result (λ p. HasForm (with_bytes p)) }
{
    match rest {
        [name, seed, count] => {
            gen_with(source, name, number(seed.as_str()), number(count.as_str()))
        }
        _ => None,
    }
}

// The plan of a first word, a source file and the words after them.
fn plan_behind<'a>(word: &str, source: &'a str, rest: &'a [String]) -> Option<Plan<'a>>
    ensures is { option_map with_bytes result ≡ plan_behind word.now source.now (map string_bytes rest.now) }
    ensures form { IfSome result (λ p. HasForm (with_bytes p)) }
{
    if word == "gen" {
        gen_plan(source, rest)
    } else {
        plan_for(named_command(word), source, rest)
    }
}

/// The plan of the words, where they are a command.
pub fn plan_of(words: &[String]) -> Option<Plan<'_>>
    ensures is { option_map with_bytes result ≡ plan_of (map string_bytes words.now) }
    ensures form { IfSome result (λ p. HasForm (with_bytes p)) }
{
    match words {
        [word, source, rest @ ..] => plan_behind(word.as_str(), source.as_str(), rest),
        _ => None,
    }
}

/// The command of the words; none exactly where they are no command. Allocates nothing.
pub fn check_words(words: &[String]) -> Option<Command>
    ensures { result ≡ command_of (map string_bytes words.now) }
{
    let plan = plan_of(words)?;
    Some(plan.command)
}
