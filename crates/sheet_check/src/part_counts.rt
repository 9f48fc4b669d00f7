// What questions 8 and 9 count: actions, methods, and in the method that stands open its nodes and its last node's rows.
// Document 01, "The three sheets", the node rules.
ghost use Rattle.std.specs.Prelude.{◌≡◌};
ghost use Rattle.sheet_check.specs.PartCounts.{Small, nothing, within_rules, closed, counted, counted_in_group};

use sheet_rows::tag;

#[derive(Clone, Copy)]
pub struct PartCounts {
    pub actions: u16,
    pub methods: u16,
    // The rows so far end inside a method, with these counts.
    pub inside: bool,
    pub nodes: u16,
    pub alternatives: u16,
    pub afters: u16,
    // The first method that was outside its node rules, if one was.
    pub offender: Option<u16>,
}

impl PartCounts {
    // The most nodes of a method.
    pub const MOST_NODES: u16 = 63;

    pub fn nothing() -> PartCounts
        ensures { result ≡ nothing }
    {
        PartCounts {
            actions: 0,
            methods: 0,
            inside: false,
            nodes: 0,
            alternatives: 0,
            afters: 0,
            offender: None,
        }
    }

    // The open method is within its node rules.
    #[tactic(auto, using(std::proofs::lemmas::Bool::Decides::nat_tests), unfolding(crate::specs::PartCounts::within_rules))]
    pub fn within_rules(self) -> bool
        ensures { result ≡ within_rules self }
    {
        (1..=Self::MOST_NODES).contains(&self.nodes) && self.alternatives == 1 && self.afters == 0
    }

    // The open method ends here.
    #[tactic(auto, using(std::proofs::lemmas::Bool::Decides::nat_tests), unfolding(crate::specs::PartCounts::closed, crate::specs::PartCounts::noted))]
    pub fn closed(self) -> PartCounts
        ensures { result ≡ closed self }
    {
        if self.inside && self.offender.is_none() && !self.within_rules() && self.methods >= 1 {
            return PartCounts {
                offender: Some(self.methods - 1),
                ..self
            };
        }
        self
    }

    // Counts one more row.
    #[tactic(auto, using(std::proofs::lemmas::Bool::Decides::nat_tests), unfolding(crate::specs::PartCounts::counted, crate::specs::PartCounts::with_action, crate::specs::PartCounts::with_method, crate::specs::PartCounts::with_counts))]
    pub fn count(&mut self, tag: u16)
        requires { Small self.old }
        ensures { self.new ≡ counted self.old tag }
    {
        match tag {
            tag::ACTION => {
                *self = self.closed();
                self.actions += 1;
                self.inside = false;
            }
            tag::METHOD => {
                *self = self.closed();
                self.methods += 1;
                self.inside = true;
                self.nodes = 0;
                self.alternatives = 0;
                self.afters = 0;
            }
            tag::NODE => {
                self.nodes += 1;
                self.alternatives = 0;
                self.afters = 0;
            }
            tag::ALTERNATIVE => self.alternatives += 1,
            tag::AFTER => self.afters += 1,
            _ => {}
        }
    }

    // Counts a row that goes on in its group: only an 11 row counts.
    #[tactic(auto, using(std::proofs::lemmas::Bool::Decides::nat_tests), unfolding(crate::specs::PartCounts::counted_in_group, crate::specs::PartCounts::with_counts))]
    pub fn count_in_group(&mut self, tag: u16)
        requires { Small self.old }
        ensures { self.new ≡ counted_in_group self.old tag }
    {
        if tag == tag::AFTER {
            self.afters += 1;
        }
    }
}
