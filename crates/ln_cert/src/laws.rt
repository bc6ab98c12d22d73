//! Laws of the text of listings.
ghost use Rattle.std.specs.Prelude.{◌≡◌, ℕ, List};
ghost use Rattle.ln_cert.specs.declared.part.Part.{Part as AnyPart};
ghost use Rattle.ln_cert.specs.Listing.{IsFormFault, ListText};

/// No bytes are two listings.
///
/// By it a reader returns the one listing of the bytes, and what was written is read back.
#[tactic(auto, using(crate::proofs::Reading::Whole::one_text))]
pub fn one_listing()
    ensures { (bytes : List ℕ) (v w : ℕ) (xs ys : List AnyPart) → ListText bytes v xs → ListText bytes w ys → (v ≡ w) × (xs ≡ ys) }
{}

/// Bytes that have a form fault are no listing, and they have one form fault at most.
///
/// By it the line of a fault is decided by the bytes alone.
pub fn one_fault()
    ensures none { (bytes : List ℕ) (at v : ℕ) (ps : List AnyPart) → IsFormFault bytes at → ListText bytes v ps → ⊥ }
    ensures one { (bytes : List ℕ) (m n : ℕ) → IsFormFault bytes m → IsFormFault bytes n → m ≡ n }
{}
