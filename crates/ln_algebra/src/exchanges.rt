//! Laws of the exchange of two sites: where it multiplies the normal polynomial by 1 or -1, it does so to the perturbed sign.

ghost use Rattle.ln_algebra.specs.Exchange.{CoefficientsTurn, FirstsExchange, OrdersExchange, SignsTurn, TermsTurn};

/// States what follows where exchanging two sites multiplies the normal polynomial by 1 or -1: the perturbed sign of each row is multiplied by
/// it too, in either order of infinitesimals. So the blocks of one order of the sites decide all rows.
pub fn exchanges_turn_signs()
    ensures coefficients { CoefficientsTurn }
    ensures orders { OrdersExchange }
    ensures firsts { FirstsExchange }
    ensures signs { SignsTurn }
{}

/// States that the terms of the normal polynomial show, one by one, whether an exchange multiplies it by 1 or -1.
pub fn terms_turn()
    ensures { TermsTurn }
{}
