// Why a table, a question or a call is refused, and where (specs/Refusals.antt has the papers' numbers).
ghost use Rattle.std.specs.Prelude.{◌≡◌};
ghost use Rattle.objects.specs.Refusals.{reason_number};

#[derive(Clone, Copy, PartialEq, Eq)]
pub enum Reason {
    WorkShort,
    TextLong,
    Header,
    Form,
    Place,
    Room,
    Lacking,
    Forbidden,
    Clash,
    Containing,
    Question,
    SecondType,
    AnswerShort,
    PackageOrder,
}

// The reason and the line, 0 where it is no line's.
#[derive(Clone, Copy, PartialEq, Eq)]
pub struct Refusal {
    pub reason: Reason,
    pub line: u32,
}

impl Reason {
    // Its number in the papers.
    pub fn number(self) -> u32
        ensures { result ≡ reason_number self }
    {
        match self {
            Reason::WorkShort => 1,
            Reason::TextLong => 2,
            Reason::Header => 3,
            Reason::Form => 4,
            Reason::Place => 5,
            Reason::Room => 6,
            Reason::Lacking => 7,
            Reason::Forbidden => 8,
            Reason::Clash => 9,
            Reason::Containing => 10,
            Reason::Question => 11,
            Reason::SecondType => 12,
            Reason::AnswerShort => 13,
            Reason::PackageOrder => 14,
        }
    }
}
