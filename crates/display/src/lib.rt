// The stepping display: one record of atoms and waiting goals, moved forward where it is held. Document 01, "How a derivation runs".
// No public call: its record must come from checked sheets (`replay::first::prepared`) and from the display's own steps. Its caller owes that,
// and with it the sheets and the tables that belong to the record, and for each step the number of the steps taken before it.
#![tactic(auto)]

pub mod forward;
