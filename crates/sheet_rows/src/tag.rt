// The twelve tags by name. Document 01, "The three sheets".
ghost use Rattle.std.specs.Prelude.{◌≡◌, [], ◌∷◌};
ghost use Rattle.hgn.specs.Lists.{elem};
ghost use Rattle.hgn.specs.Tag.{begins};

pub const ACTION: u16 = 1;

pub const METHOD: u16 = 2;

pub const NEEDS_TRUE: u16 = 3;

pub const NEEDS_FALSE: u16 = 4;

pub const MAKES_TRUE: u16 = 5;

pub const MAKES_FALSE: u16 = 6;

pub const NODE: u16 = 7;

pub const ALTERNATIVE: u16 = 8;

pub const WANTED_TRUE: u16 = 9;

pub const WANTED_FALSE: u16 = 10;

pub const AFTER: u16 = 11;

pub const TRUE_AT_START: u16 = 12;

// The tag is one of these.
#[tactic(auto, using(std::proofs::lemmas::Bool::Decides::nat_tests), unfolding(hgn::specs::Lists::elem, hgn::specs::Lists::any))]
pub fn one_of_2(tag: u16, a: u16, b: u16) -> bool
    ensures { result ≡ elem tag (a ∷ b ∷ []) }
{
    tag == a || tag == b
}

#[tactic(auto, using(std::proofs::lemmas::Bool::Decides::nat_tests), unfolding(hgn::specs::Lists::elem, hgn::specs::Lists::any))]
pub fn one_of_3(tag: u16, a: u16, b: u16, c: u16) -> bool
    ensures { result ≡ elem tag (a ∷ b ∷ c ∷ []) }
{
    tag == a || tag == b || tag == c
}

#[tactic(auto, using(std::proofs::lemmas::Bool::Decides::nat_tests), unfolding(hgn::specs::Lists::elem, hgn::specs::Lists::any))]
pub fn one_of_4(tag: u16, a: u16, b: u16, c: u16, d: u16) -> bool
    ensures { result ≡ elem tag (a ∷ b ∷ c ∷ d ∷ []) }
{
    tag == a || tag == b || tag == c || tag == d
}

// A row with this tag begins an action, a method, a node or an alternative.
#[tactic(auto, using(std::proofs::lemmas::Bool::Decides::nat_tests), unfolding(hgn::specs::Tag::begins, hgn::specs::Lists::elem, hgn::specs::Lists::any))]
pub fn begins_part(tag: u16) -> bool
    ensures { result ≡ begins tag }
{
    tag == ACTION || tag == METHOD || tag == NODE || tag == ALTERNATIVE
}
