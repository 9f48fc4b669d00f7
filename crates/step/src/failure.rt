// What is told of a question that is answered no: the refusal, and the atom that is not as wanted. Document 01, "Questions"; document 02,
// Req 01.
ghost use Rattle.std.specs.Prelude.{◌≡◌, false};
ghost use Rattle.hgn.specs.Questions.{◌asks◌, ◌naming◌, without_atom, failed_at};
ghost use Rattle.sheet_rows.specs.Refusals.{number_of, refusal_of};
ghost use Rattle.step.specs.Failures.{failure_of};

use sheet_rows::position::Atom;
use sheet_rows::refusal::{Question, Refusal};
use state::atoms;

// The refusal, and the atom that is not as wanted, if the question names one.
#[derive(Clone, Copy)]
pub struct Failure {
    pub refusal: Refusal,
    pub atom: Option<Atom>,
}

impl From<Refusal> for Failure {
    ghost from_gives = { λ refusal result. failure_of result ≡ without_atom (refusal_of refusal) };

    // A refusal that names no atom.
    fn from(refusal: Refusal) -> Failure {
        Failure {
            refusal,
            atom: None,
        }
    }
}

impl Failure {
    // This question, which names no atom, was answered no.
    pub fn by(question: Question) -> Failure
        ensures { failure_of result ≡ (number_of question asks false).failure }
    {
        Failure {
            refusal: Refusal::by(question),
            atom: None,
        }
    }

    // This question was answered no, since this atom is not as wanted.
    pub fn unmet(question: Question, atom: Atom) -> Failure
        ensures { failure_of result ≡ (number_of question asks false naming atom.0).failure }
    {
        Failure {
            refusal: Refusal::by(question),
            atom: Some(atom),
        }
    }

    // What is told keeps its question and its atom and gets this place.
    pub fn at(self, place: u16) -> Failure
        ensures { failure_of result ≡ failed_at place (failure_of self) }
    {
        Failure {
            refusal: self.refusal.at(place),
            ..self
        }
    }

    // The number of its question.
    pub fn number(self) -> u16
        ensures { result ≡ (failure_of self).refusal.number }
    {
        self.refusal.number()
    }

    // The atom as it is told: 256 where none is named.
    pub fn atom_word(self) -> u16
        ensures { result ≡ (failure_of self).atom }
    {
        match self.atom {
            Some(atom) => atom.0,
            None => atoms::NO_ATOM,
        }
    }
}
