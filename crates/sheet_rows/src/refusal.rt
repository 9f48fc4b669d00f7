// What a check, a step and a call tell where a question is answered no. Document 01, "Questions".
ghost use Rattle.std.specs.Prelude.{◌≡◌, false};
ghost use Rattle.hgn.specs.Questions.{◌asks◌, placed};
ghost use Rattle.sheet_rows.specs.Refusals.{number_of, IsQuestionOf, refusal_of};

// The questions, each by what is wrong where it is answered no. Each stands for its number, as `docs/REFUSALS.md` lists them.
#[derive(Clone, Copy, PartialEq, Eq, Debug)]
pub enum Question {
    // The shop sheet.
    ShopTooShort = 1,
    ShopSizes = 2,
    ShopLength = 3,
    ShopTag = 4,
    ShopValue = 5,
    ShopNotRising = 6,
    ShopEnd = 7,
    ShopCounts = 8,
    MethodNodes = 9,
    // The order sheet.
    OrderTooShort = 11,
    OrderSizes = 12,
    OrderLength = 13,
    OrderTag = 14,
    OrderValue = 15,
    OrderNotRising = 16,
    OrderEnd = 17,
    OrderCounts = 18,
    // The trace, and the plan's room.
    TraceTooShort = 21,
    TraceSteps = 22,
    TraceLength = 23,
    PlanRoom = 24,
    // A step.
    NoGoalThere = 25,
    UnknownMove = 26,
    NothingFree = 27,
    GoalNotFree = 28,
    GoalUnmet = 29,
    NeedsUnmet = 30,
    Irrelevant = 31,
    TooManyWaiting = 32,
    // After the last step.
    GoalsLeft = 33,
    // The search.
    DepthTooLarge = 41,
    SearchRoom = 42,
    NoTrace = 43,
    // The join.
    TooManyGoals = 81,
    TooManyRows = 82,
    JoinRoom = 83,
}

impl Question {
    // The question of a number; none where no question has it.
    pub fn of(number: u16) -> Option<Question>
        ensures { IsQuestionOf number result }
    {
        match number {
            1 => Some(Question::ShopTooShort),
            2 => Some(Question::ShopSizes),
            3 => Some(Question::ShopLength),
            4 => Some(Question::ShopTag),
            5 => Some(Question::ShopValue),
            6 => Some(Question::ShopNotRising),
            7 => Some(Question::ShopEnd),
            8 => Some(Question::ShopCounts),
            9 => Some(Question::MethodNodes),
            11 => Some(Question::OrderTooShort),
            12 => Some(Question::OrderSizes),
            13 => Some(Question::OrderLength),
            14 => Some(Question::OrderTag),
            15 => Some(Question::OrderValue),
            16 => Some(Question::OrderNotRising),
            17 => Some(Question::OrderEnd),
            18 => Some(Question::OrderCounts),
            21 => Some(Question::TraceTooShort),
            22 => Some(Question::TraceSteps),
            23 => Some(Question::TraceLength),
            24 => Some(Question::PlanRoom),
            25 => Some(Question::NoGoalThere),
            26 => Some(Question::UnknownMove),
            27 => Some(Question::NothingFree),
            28 => Some(Question::GoalNotFree),
            29 => Some(Question::GoalUnmet),
            30 => Some(Question::NeedsUnmet),
            31 => Some(Question::Irrelevant),
            32 => Some(Question::TooManyWaiting),
            33 => Some(Question::GoalsLeft),
            41 => Some(Question::DepthTooLarge),
            42 => Some(Question::SearchRoom),
            43 => Some(Question::NoTrace),
            81 => Some(Question::TooManyGoals),
            82 => Some(Question::TooManyRows),
            83 => Some(Question::JoinRoom),
            _ => None,
        }
    }

    // The number that is told of it.
    pub fn number(self) -> u16
        ensures { result ≡ number_of self }
    {
        self as u16
    }
}

// The question that is answered no, and its place: a row, a method, a step.
#[derive(Clone, Copy, PartialEq, Eq, Debug)]
pub struct Refusal {
    pub question: Question,
    pub place: u16,
}

impl Refusal {
    // The refusal by this question, with no place of its own.
    pub fn by(question: Question) -> Refusal
        ensures { refusal_of result ≡ (number_of question asks false).failure.refusal }
    {
        Refusal { question, place: 0 }
    }

    // A refusal keeps its question and gets this place.
    pub fn at(self, place: u16) -> Refusal
        ensures { refusal_of result ≡ placed place (refusal_of self) }
    {
        Refusal { place, ..self }
    }

    // The number of its question.
    pub fn number(self) -> u16
        ensures { result ≡ (refusal_of self).number }
    {
        self.question.number()
    }
}
