//! States what valid listings promise, as contracts of functions that do nothing.
ghost use Rattle.ln_verify.specs.Verified.{PartsAreNamed, ValidListingsGiveSigns};
ghost use Rattle.ln_verify.specs.Law.{GoodPartsAreValid, OneAnswer, ValidPartsStand, Version1Follows, Version1IsOnBounds};
ghost use Rattle.ln_verify.specs.Law.{Version2IsOfPrograms};

/// A listing has one first fault at most, and none where it is valid.
pub fn one_answer()
    ensures { OneAnswer }
{}

/// Each part of a valid listing follows the rules, carries its predicate's polynomial, and has the stage lists of all orders.
pub fn valid_parts_stand()
    ensures { ValidPartsStand }
{}

/// A part is judged by the name of its predicate: in a table a shape has its predicate's name.
#[tactic(auto, using(crate::proofs::Judging::Subjects::parts_named))]
pub fn parts_are_named()
    ensures { PartsAreNamed }
{}

/// A listing that is valid for the accepted predicates of a table, whoever made it, has a part of each, and on each row in range
/// the machine of the part has a verdict, whose sign is the perturbed sign.
///
/// On it rests what `verify` means by valid.
pub fn valid_listings_give_signs()
    ensures { ValidListingsGiveSigns }
{}

/// The lines that are written for good parts are judged valid.
///
/// By it the listing that `list` writes is valid.
#[tactic(auto, using(crate::proofs::Judging::Put::good_valid))]
pub fn good_parts_are_valid()
    ensures { GoodPartsAreValid }
{}

/// The rules of version 1 are those on one bound for each operation; the rules of version 2 are those by which programs are kept;
/// and what follows version 1 follows version 2.
///
/// By it one machine runs the parts of both versions.
#[tactic(auto, using(crate::proofs::Engines::Versions::is_on_bounds, crate::proofs::Engines::Versions::version_1_follows))]
pub fn versions_follow()
    ensures bounds { Version1IsOnBounds }
    ensures programs { Version2IsOfPrograms }
    ensures first { Version1Follows }
{}
