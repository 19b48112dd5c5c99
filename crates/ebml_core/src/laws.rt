//! What holds of elements and listings, whatever the bytes are.

ghost use Rattle.std.specs.Prelude.{◌≡◌, ℕ, List, ◌++◌, length, false};
ghost use Rattle.std.specs.List.{AllByRecursion};
ghost use Rattle.ebml_core.specs.declared.element.Element.{Element};
ghost use Rattle.ebml_core.specs.Spelling.{Piece, IsPiece, Spells, Holds, spelling, between};
ghost use Rattle.ebml_core.specs.Listing.{Listing, whole, Lists, EndsWithParent, EndsBefore, EndsBeforeNext};

/// Bytes spell elements in one way at most, and no element's spelling begins another's.
pub fn one_reading()
    ensures reading { (bytes : List ℕ) (ps qs : List Piece) → Spells bytes ps → Spells bytes qs → ps ≡ qs }
    ensures front { (p q : Piece) (x y : List ℕ) → IsPiece p → IsPiece q
        → spelling p ++ x ≡ spelling q ++ y → (p ≡ q) × (x ≡ y) }
{}

/// Each text lists one thing, wherever it lies: where elements of unknown size end with their parent, and where they
/// end before the next element that may not stand in them.
pub fn one_listing()
    ensures some { (place : ℕ) (text : List ℕ) → (listing : Listing) × Lists EndsWithParent place text listing }
    ensures one { (place : ℕ) (text : List ℕ) (a b : Listing)
        → Lists EndsWithParent place text a → Lists EndsWithParent place text b → a ≡ b }
    ensures some_before { (ids : ℕ → List ℕ) (place : ℕ) (text : List ℕ)
        → (listing : Listing) × Lists (EndsBeforeNext ids) place text listing }
    ensures one_before { (ids : ℕ → List ℕ) (place : ℕ) (text : List ℕ) (a b : Listing)
        → Lists (EndsBeforeNext ids) place text a → Lists (EndsBeforeNext ids) place text b → a ≡ b }
{}

/// Each text has one end before the elements of some ids, wherever it lies: so `Walker::end_before` has one answer.
pub fn one_end()
    ensures some { (ids : List ℕ) (place : ℕ) (text : List ℕ)
        → (content rest : List ℕ) × (text ≡ content ++ rest) × EndsBefore ids place content rest }
    ensures one { (ids : List ℕ) (place : ℕ) (x y v w : List ℕ) → x ++ y ≡ v ++ w
        → EndsBefore ids place x y → EndsBefore ids place v w → length x ≡ length v }
{}

/// Elements of known size are listed, and nothing more, exactly where the bytes spell them, however those of unknown
/// size end.
pub fn known_is_spelled()
    ensures listed { (bytes : List ℕ) (from to : ℕ) (es : List Element) → Holds bytes from to es
        → Lists EndsWithParent from (between bytes from to) (whole es) }
    ensures spelled { (bytes : List ℕ) (from to : ℕ) (es : List Element) → AllByRecursion (λ e. e.unknown ≡ false) es
        → Lists EndsWithParent from (between bytes from to) (whole es) → Holds bytes from to es }
    ensures listed_before { (ids : ℕ → List ℕ) (bytes : List ℕ) (from to : ℕ) (es : List Element) → Holds bytes from to es
        → Lists (EndsBeforeNext ids) from (between bytes from to) (whole es) }
    ensures spelled_before { (ids : ℕ → List ℕ) (bytes : List ℕ) (from to : ℕ) (es : List Element)
        → AllByRecursion (λ e. e.unknown ≡ false) es
        → Lists (EndsBeforeNext ids) from (between bytes from to) (whole es) → Holds bytes from to es }
{}
