// What a call can be refused for. The numbers are those of the README's table; C and the programs tell them.
ghost use Rattle.std.specs.Prelude.{◌≡◌, get_or};
ghost use Rattle.reading.specs.Verdict.{number, refusals, answer_of, verdict_number};

use std::fmt;

#[derive(Clone, Copy, PartialEq, Eq, Debug)]
pub enum Refusal {
    ChartHeader = 1,
    ChartCount = 2,
    ChartLength = 3,
    ChartField = 4,
    Parent = 5,
    ManySequential = 6,
    NoSequential = 7,
    EntryMarks = 8,
    ExitMarks = 9,
    Siblings = 10,
    Exit = 11,
    Entry = 12,
    Updates = 13,
    Channel = 14,
    ManyEdges = 15,
    ShortBuffer = 16,
    ChartConfiguration = 17,
    List = 18,
    Inactive = 19,
    NotAllowed = 20,
    Bound = 21,
    Ticks = 22,
    NetworkHeader = 24,
    NetworkField = 25,
    NetworkConfiguration = 26,
    Urgent = 27,
    OutOfRange = 28,
    Window = 29,
}

impl Refusal {
    // Its number in the table.
    pub fn number(self) -> u8
        ensures { result ≡ number self }
    {
        self as u8
    }

    // The refusal of this number, if there is one.
    pub fn of(number: u8) -> Option<Refusal>
        ensures { result ≡ get_or refusals number None }
    {
        match number {
            1 => Some(Refusal::ChartHeader),
            2 => Some(Refusal::ChartCount),
            3 => Some(Refusal::ChartLength),
            4 => Some(Refusal::ChartField),
            5 => Some(Refusal::Parent),
            6 => Some(Refusal::ManySequential),
            7 => Some(Refusal::NoSequential),
            8 => Some(Refusal::EntryMarks),
            9 => Some(Refusal::ExitMarks),
            10 => Some(Refusal::Siblings),
            11 => Some(Refusal::Exit),
            12 => Some(Refusal::Entry),
            13 => Some(Refusal::Updates),
            14 => Some(Refusal::Channel),
            15 => Some(Refusal::ManyEdges),
            16 => Some(Refusal::ShortBuffer),
            17 => Some(Refusal::ChartConfiguration),
            18 => Some(Refusal::List),
            19 => Some(Refusal::Inactive),
            20 => Some(Refusal::NotAllowed),
            21 => Some(Refusal::Bound),
            22 => Some(Refusal::Ticks),
            24 => Some(Refusal::NetworkHeader),
            25 => Some(Refusal::NetworkField),
            26 => Some(Refusal::NetworkConfiguration),
            27 => Some(Refusal::Urgent),
            28 => Some(Refusal::OutOfRange),
            29 => Some(Refusal::Window),
            _ => None,
        }
    }
}

impl From<Refusal> for u8 {
    ghost from_gives = { λ refusal n. n ≡ number refusal };

    fn from(refusal: Refusal) -> u8 {
        refusal.number()
    }
}

// The number of a refusal, and 0 where there is none.
pub fn number_of(answer: Result<(), Refusal>) -> u8
    ensures { result ≡ verdict_number (answer_of answer) }
{
    match answer {
        Ok(()) => 0,
        Err(refusal) => refusal.number(),
    }
}

// Its sentence, as the README's table has it.
impl fmt::Display for Refusal {
    fn fmt<W: fmt::Write>(&self, f: &mut fmt::Formatter<W>) -> fmt::Result {
        f.write_str(match self {
            Refusal::ChartHeader => {
                "the chart has under 11 or over 65,536 bytes, a version other than 1 and 2, or a wrong length"
            }
            Refusal::ChartCount => "a count is outside its range",
            Refusal::ChartLength => "a record's length disagrees with its content or the file",
            Refusal::ChartField => "a field is out of range",
            Refusal::Parent => {
                "a parent is not a composite of smaller number, or a composite has no child"
            }
            Refusal::ManySequential => "there are over 16 sequential states",
            Refusal::NoSequential => "there is no sequential state",
            Refusal::EntryMarks => "entry marks do not fit together",
            Refusal::ExitMarks => "a composite has exit marks",
            Refusal::Siblings => "source and destination are not children of one sequential state",
            Refusal::Exit => "a basic source has an exit, or a composite one has none",
            Refusal::Entry => {
                "a basic destination has an entry, or a composite one is not marked with it"
            }
            Refusal::Updates => "a receiver assigns, or a variable is assigned twice",
            Refusal::Channel => {
                "two transitions of one channel have parents that lie one below the other"
            }
            Refusal::ManyEdges => "the network has over 1,024 edges",
            Refusal::ShortBuffer => "the lent buffer is shorter than the network",
            Refusal::ChartConfiguration => {
                "this is not a configuration of the chart, or bounds are broken"
            }
            Refusal::List => "the list is not one to sixteen known numbers, strictly ascending",
            Refusal::Inactive => "a transition or an edge is not active",
            Refusal::NotAllowed => "the set is not allowed",
            Refusal::Bound => "the new configuration breaks a bound",
            Refusal::Ticks => "there is no tick, or a clock passes its limit",
            Refusal::NetworkHeader => {
                "the network's version is neither 1 nor 2, or a count or a length is wrong"
            }
            Refusal::NetworkField => "a field is out of range, or the network is not sound",
            Refusal::NetworkConfiguration => {
                "this is not a configuration of the network, or bounds are broken"
            }
            Refusal::Urgent => "an urgent location is occupied and has to be left first",
            Refusal::OutOfRange => {
                "an assignment or an advance has a result outside the range of signed 32 bits"
            }
            Refusal::Window => {
                "the window has no tick, or a tick is smaller than the one before it"
            }
        })
    }
}
