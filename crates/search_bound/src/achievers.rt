// Which actions achieve a literal, in a table that is filled once for a shop sheet and then lent.
ghost use Rattle.std.specs.Prelude.{◌≡◌, [], ◌∷◌, ◌<◌};
ghost use Rattle.hgn.specs.Tag as Tag;
ghost use Rattle.hgn.specs.Rows.{row};
ghost use Rattle.hgn.specs.Meaning.{literals};
ghost use Rattle.hgn.specs.State.{most_atoms};
ghost use Rattle.hgn.specs.Shop.{domain};
ghost use Rattle.sheet_index.specs.Index.{rows_in};
ghost use Rattle.sheet_index.specs.Tables.{Indexed};
ghost use Rattle.state.specs.Literals.{literal_of};
ghost use Rattle.search_bound.specs.Tables.{entries, index_of, entry_at, AchievesNone, OnlyAchievers, noted};

use sheet_check::check::Shop;
use sheet_check::sizes::ShopSizes;
use sheet_index::operators;
use sheet_index::rows::Rows;
use state::literals::{Literal, LiteralTags};

// Which actions achieve a literal: none, a single one, told as an operator (operator k is action k + 1), or several. A shop sheet has at most
// 255 actions, so a byte holds the operator, and an entry takes two.
#[derive(Clone, Copy)]
pub enum Achievers {
    None,
    Only(u8),
    Many,
}

// Which actions achieve each literal. An atom has two entries, one for each sign.
#[derive(Clone, Copy)]
pub struct Table {
    entries: [Achievers; Table::ENTRIES],
}

// Where the table has a literal.
fn index_of(literal: Literal) -> usize
    requires { literal.atom.0 < most_atoms }
    ensures { (result ≡ index_of (literal_of literal)) × (result < entries) }
{
    2 * usize::from(literal.atom.0) + usize::from(literal.sign)
}

impl Table {
    const ENTRIES: usize = 2 * Shop::MOST_ATOMS as usize;

    // The table of a sheet without actions.
    #[inline(always)]
    pub fn empty() -> Table
        ensures { AchievesNone result }
    {
        Table {
            entries: [Achievers::None; Self::ENTRIES],
        }
    }

    // The table becomes that of a shop sheet, where it stands: one that is handed back is copied.
    pub fn fill(&mut self, shop: &[u16], order: &[u16], tables: &[u16])
        requires { Indexed shop.now order.now tables.now }
        ensures { OnlyAchievers (domain shop.now) self.new }
    {
        self.entries = [Achievers::None; Self::ENTRIES];
        for operator in 0..ShopSizes::of(shop).actions {
            let effects = operators::action_part(shop, tables, operator + 1);
            self.note_effects(effects, operator as u8);
        }
    }

    // The table of a shop sheet.
    pub fn of(shop: &[u16], order: &[u16], tables: &[u16]) -> Table
        requires { Indexed shop.now order.now tables.now }
        ensures { OnlyAchievers (domain shop.now) result }
    {
        let mut table = Table::empty();
        table.fill(shop, order, tables);
        table
    }

    // The actions that achieve a literal.
    pub fn achievers_of(&self, literal: Literal) -> Achievers
        requires { literal.atom.0 < most_atoms }
        ensures { result ≡ entry_at self.now.entries (literal_of literal) }
    {
        self.entries[index_of(literal)]
    }

    // The action is noted at the literal; the table has no place for an atom past the last.
    fn note(&mut self, literal: Literal, operator: u8)
        ensures { self.new.entries ≡ noted operator (literal_of literal ∷ []) self.old.entries }
    {
        if Shop::MOST_ATOMS <= literal.atom.0 {
            return;
        }
        let at = index_of(literal);
        self.entries[at] = match self.entries[at] {
            Achievers::None => Achievers::Only(operator),
            _ => Achievers::Many,
        };
    }

    // The action is noted at the literal that the row makes, if it makes one.
    fn note_row(&mut self, tag: u16, value: u16, operator: u8)
        ensures { self.new.entries ≡ noted operator (literals Tag.makes_true Tag.makes_false (row tag value ∷ [])) self.old.entries }
    {
        if let Some(literal) = LiteralTags::EFFECTS.literal(tag, value) {
            self.note(literal, operator);
        }
    }

    // The action is noted at each literal that these rows make.
    fn note_effects(&mut self, rows: Rows, operator: u8)
        ensures { self.new.entries ≡ noted operator (literals Tag.makes_true Tag.makes_false (rows_in rows.entry)) self.old.entries }
    {
        for (tag, value) in rows.iter() {
            self.note_row(*tag, *value, operator);
        }
    }
}
