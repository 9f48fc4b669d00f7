// Where a sheet stands between two rows, and the three questions asked of the next row.
// Document 01, "The three sheets" and "Questions".
ghost use Rattle.std.specs.Prelude.{◌≡◌, ◌+◌, ltb};
ghost use Rattle.std.specs.Int.{w16};
ghost use Rattle.std.proofs.Common.{Fits};
ghost use Rattle.hgn.specs.Lists.{elem};
ghost use Rattle.hgn.specs.Tag.{context_after, may_end, least_here, in_range, rises, advance, opening};
ghost use Rattle.sheet_rows.specs.Reading.{context_of, position_of, follow_of, first_question_of, reading_of, row_reading, row_goes_on, above};
ghost use Rattle.sheet_rows.specs.Refusals.{number_of};

use crate::refusal::Question;
use crate::tag;

// An atom by its number.
#[derive(Clone, Copy)]
pub struct Atom(pub u16);

impl Atom {
    // One of the sheet's atoms, of which there are so many.
    pub fn below(self, atoms: u16) -> bool
        ensures { result ≡ ltb self.0 atoms }
    {
        self.0 < atoms
    }
}

// The two sheets that have rows.
#[derive(Clone, Copy)]
pub enum Sheet {
    Shop,
    Order,
}

#[derive(Clone, Copy)]
pub enum Context {
    // At the start; in an order sheet, after 12 too.
    AtStart,
    // After 1, or 3 or 4 of an action.
    InAction,
    // After 5 or 6.
    InEffects,
    // After 2, or 3 or 4 of a method.
    InMethod,
    // After 7 or 11.
    InNode,
    // After 8, 9 or 10.
    InAlternative,
}

#[derive(Clone, Copy)]
pub struct Position {
    pub context: Context,
    // The least value that goes on in the group of the last row.
    pub least: u32,
    // The nodes so far in this network.
    pub nodes: u16,
}

impl Sheet {
    // May this tag follow here?
    pub fn tag_question(self) -> Question
        ensures { number_of result ≡ first_question_of self }
    {
        match self {
            Sheet::Shop => Question::ShopTag,
            Sheet::Order => Question::OrderTag,
        }
    }

    // Is this value in range?
    pub fn value_question(self) -> Question
        ensures { number_of result ≡ first_question_of self + 1 }
    {
        match self {
            Sheet::Shop => Question::ShopValue,
            Sheet::Order => Question::OrderValue,
        }
    }

    // Is this value above the one before it in its group?
    pub fn rise_question(self) -> Question
        ensures { number_of result ≡ first_question_of self + 2 }
    {
        match self {
            Sheet::Shop => Question::ShopNotRising,
            Sheet::Order => Question::OrderNotRising,
        }
    }
}

impl Context {
    pub fn may_end(self) -> bool
        ensures { result ≡ may_end (context_of self) }
    {
        !matches!(self, Context::InMethod | Context::InNode)
    }

    // The tag may follow here in a shop sheet.
    #[tactic(auto, using(std::proofs::lemmas::Bool::Decides::nat_tests), unfolding(hgn::specs::Tag::shop_follow, hgn::specs::Lists::elem, hgn::specs::Lists::any))]
    pub fn allows_in_shop(self, tag: u16) -> bool
        ensures { result ≡ elem tag (follow_of Sheet.Shop (context_of self)) }
    {
        match self {
            Context::AtStart => matches!(tag, tag::ACTION | tag::METHOD),
            Context::InAction => matches!(
                tag,
                tag::NEEDS_TRUE
                    | tag::NEEDS_FALSE
                    | tag::MAKES_TRUE
                    | tag::MAKES_FALSE
                    | tag::ACTION
                    | tag::METHOD
            ),
            Context::InEffects => matches!(
                tag,
                tag::MAKES_TRUE | tag::MAKES_FALSE | tag::ACTION | tag::METHOD
            ),
            Context::InMethod => matches!(tag, tag::NEEDS_TRUE | tag::NEEDS_FALSE | tag::NODE),
            Context::InNode => matches!(tag, tag::AFTER | tag::ALTERNATIVE),
            Context::InAlternative => matches!(
                tag,
                tag::WANTED_TRUE | tag::WANTED_FALSE | tag::ALTERNATIVE | tag::NODE | tag::METHOD
            ),
        }
    }

    // The tag may follow here in an order sheet.
    #[tactic(auto, using(std::proofs::lemmas::Bool::Decides::nat_tests), unfolding(hgn::specs::Tag::order_follow, hgn::specs::Lists::elem, hgn::specs::Lists::any))]
    pub fn allows_in_order(self, tag: u16) -> bool
        ensures { result ≡ elem tag (follow_of Sheet.Order (context_of self)) }
    {
        match self {
            Context::AtStart => matches!(tag, tag::TRUE_AT_START | tag::NODE),
            Context::InAction | Context::InEffects | Context::InMethod => false,
            Context::InNode => matches!(tag, tag::AFTER | tag::ALTERNATIVE),
            Context::InAlternative => matches!(
                tag,
                tag::WANTED_TRUE | tag::WANTED_FALSE | tag::ALTERNATIVE | tag::NODE
            ),
        }
    }

    pub fn allows(self, sheet: Sheet, tag: u16) -> bool
        ensures { result ≡ elem tag (follow_of sheet (context_of self)) }
    {
        match sheet {
            Sheet::Shop => self.allows_in_shop(tag),
            Sheet::Order => self.allows_in_order(tag),
        }
    }

    // Where the sheet stands after a row with this tag.
    // By if: with a match here and in the tests of ranges a check of a shop sheet takes a third longer.
    #[tactic(auto, using(std::proofs::lemmas::Bool::Decides::nat_tests), unfolding(hgn::specs::Tag::context_after, hgn::specs::Lists::elem, hgn::specs::Lists::any))]
    pub fn after(self, tag: u16) -> Context
        ensures { context_of result ≡ context_after (context_of self) tag }
    {
        if tag == tag::ACTION {
            Context::InAction
        } else if tag == tag::METHOD {
            Context::InMethod
        } else if tag == tag::MAKES_TRUE || tag == tag::MAKES_FALSE {
            Context::InEffects
        } else if tag == tag::NODE || tag == tag::AFTER {
            Context::InNode
        } else if tag == tag::ALTERNATIVE || tag == tag::WANTED_TRUE || tag == tag::WANTED_FALSE {
            Context::InAlternative
        } else {
            self
        }
    }
}

impl Position {
    // Before the first row.
    pub fn opening() -> Position
        ensures { position_of result ≡ opening }
    {
        Position {
            context: Context::AtStart,
            least: 0,
            nodes: 0,
        }
    }

    // The least value that a row with this tag may have in its group.
    #[tactic(auto, using(std::proofs::lemmas::Bool::Decides::nat_tests), unfolding(hgn::specs::Tag::least_here, hgn::specs::Lists::elem, hgn::specs::Lists::any))]
    pub fn least_for(self, tag: u16) -> u32
        ensures { result ≡ least_here (position_of self) tag }
    {
        match self.context {
            Context::InAction if tag == tag::MAKES_TRUE || tag == tag::MAKES_FALSE => 0,
            _ => self.least,
        }
    }

    // The value is in range; `atoms` is the sheet's F.
    #[tactic(auto, using(std::proofs::lemmas::Bool::Decides::nat_tests), unfolding(hgn::specs::Tag::in_range, hgn::specs::Tag::begins, hgn::specs::Lists::elem, hgn::specs::Lists::any))]
    pub fn in_range(self, atoms: u16, tag: u16, value: u16) -> bool
        ensures { result ≡ in_range atoms (position_of self) tag value }
    {
        if tag == tag::ACTION {
            true
        } else if tag::begins_part(tag) {
            value == 0
        } else if tag == tag::AFTER {
            u32::from(value) + 1 < u32::from(self.nodes)
        } else {
            Atom(value).below(atoms)
        }
    }

    // The value is above the one before it in its group.
    #[tactic(auto, using(std::proofs::lemmas::Bool::Decides::nat_tests), unfolding(hgn::specs::Tag::rises))]
    pub fn rises(self, tag: u16, value: u16) -> bool
        ensures { result ≡ rises (position_of self) tag value }
    {
        tag::begins_part(tag) || self.least_for(tag) <= u32::from(value)
    }

    // The position after a row.
    #[tactic(auto, using(std::proofs::lemmas::Bool::Decides::nat_tests), unfolding(hgn::specs::Tag::advance, hgn::specs::Tag::begins, hgn::specs::Lists::elem, hgn::specs::Lists::any))]
    pub fn advance(self, tag: u16, value: u16) -> Position
        requires { Fits w16 (self.nodes + 1) }
        ensures { position_of result ≡ advance (position_of self) tag value }
    {
        Position {
            context: self.context.after(tag),
            least: if tag::begins_part(tag) {
                0
            } else {
                u32::from(value) + 1
            },
            nodes: match tag {
                tag::METHOD => 0,
                tag::NODE => self.nodes + 1,
                _ => self.nodes,
            },
        }
    }

    // The row goes on in its group, the 11 rows of a node or the 9 and 10 rows of an alternative: these are most rows of large sheets,
    // they may stand in both sheets, and all that they change is the least value.
    #[tactic(auto, using(std::proofs::lemmas::Bool::Decides::nat_tests), unfolding(crate::specs::Reading::row_goes_on, hgn::specs::Lists::elem, hgn::specs::Lists::any))]
    pub fn goes_on(self, atoms: u16, tag: u16, value: u16) -> bool
        ensures { result ≡ row_goes_on atoms (position_of self) tag value }
    {
        self.least <= u32::from(value)
            && match self.context {
                Context::InNode => {
                    tag == tag::AFTER && u32::from(value) + 1 < u32::from(self.nodes)
                }
                Context::InAlternative => {
                    matches!(tag, tag::WANTED_TRUE | tag::WANTED_FALSE) && Atom(value).below(atoms)
                }
                _ => false,
            }
    }

    // The position after a row that goes on in its group.
    pub fn above(self, value: u16) -> Position
        ensures { position_of result ≡ above (position_of self) value }
    {
        Position {
            least: u32::from(value) + 1,
            ..self
        }
    }

    // Tag allowed here? Value in range? Value above the one before it in its group?
    #[tactic(auto, using(std::proofs::lemmas::Bool::Decides::nat_tests), unfolding(crate::specs::Reading::row_reading))]
    pub fn read(self, sheet: Sheet, atoms: u16, tag: u16, value: u16) -> Result<Position, Question>
        requires { Fits w16 (self.nodes + 1) }
        ensures { reading_of result ≡ row_reading (follow_of sheet) (first_question_of sheet) atoms (position_of self) tag value }
    {
        if !self.context.allows(sheet, tag) {
            return Err(sheet.tag_question());
        }
        if !self.in_range(atoms, tag, value) {
            return Err(sheet.value_question());
        }
        if !self.rises(tag, value) {
            return Err(sheet.rise_question());
        }
        Ok(self.advance(tag, value))
    }
}
