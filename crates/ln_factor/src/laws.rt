//! States the laws of products: the first vectors of the factors add up, and their signs multiply.
ghost use Rattle.ln_factor.specs.Law.{FirstsAdd, FirstsAreSums, SignsAreProducts, ZeroWhereOneIs};
ghost use Rattle.ln_factor.specs.Several.{SignsMultiply};

/// A law: on a row in range the first vector of a product is the sum of the first vectors of its factors, and it has no other; its sign
/// is the product of their signs; a product of signs is 0 exactly where one of them is. In either order of infinitesimals.
///
/// On it rests which coefficient decides a product, and when it is 0. Source: Simulation of Simplicity, Edelsbrunner and Mücke 1990;
/// sums keep an admissible order, Yap 1990.
pub fn firsts_add()
    ensures first { FirstsAdd }
    ensures sums { FirstsAreSums }
    ensures signs { SignsAreProducts }
    ensures zero { ZeroWhereOneIs }
{}

/// The product of the signs of several parts' verdicts on a row is the sign of the product of the expressions that they carry.
///
/// On it rests the sign of a product that isn't formed.
pub fn signs_multiply()
    ensures { SignsMultiply }
{}
