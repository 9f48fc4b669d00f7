// The record that a step moves forward: the atoms, and the waiting goals. Document 01, "How a derivation runs".
ghost use Rattle.std.specs.Prelude.{◌≡◌, ◌≤◌};
ghost use Rattle.hgn.specs.State.{γ};
ghost use Rattle.hgn.specs.Run.{action_at};
ghost use Rattle.hgn.specs.Shop.{domain, action_count};
ghost use Rattle.sheet_index.specs.Tables.{Indexed};

use crate::failure::Failure;
use network::goals::Goals;
use sheet_check::check::Shop;
use sheet_index::operators;
use state::atoms;
use state::literals::LiteralTags;

#[derive(Clone, Copy)]
pub struct Problem {
    pub atoms: [bool; Shop::MOST_ATOMS as usize],
    pub waiting: Goals,
}

// What is shown of a step: that it is taken, and the next record; or what the first question that fails tells, and the record as it was.
#[derive(Clone, Copy)]
pub struct Stepped {
    pub answer: Result<(), Failure>,
    pub problem: Problem,
}

// An action by its number changes the state where it stands: its effects are set one after the other, as no atom stands twice among them.
pub fn act(
    atoms: &mut [bool; Shop::MOST_ATOMS as usize],
    shop: &[u16],
    order: &[u16],
    tables: &[u16],
    action: u16,
)
    requires indexed { Indexed shop.now order.now tables.now }
    requires le_action { (1 ≤ action) × (action ≤ action_count shop.now) }
    ensures { atoms.new ≡ γ atoms.old (action_at (domain shop.now) action).effects }
{
    let rows = operators::action_part(shop, tables, action);
    atoms::set_each(atoms, rows, LiteralTags::EFFECTS);
}
