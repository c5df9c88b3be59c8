#![tactic(auto)]

// The card's state and what its calls answer. The rules stand in specs/, in the order of document 01.
pub mod conversions;

ghost use Rattle.std.specs.Prelude.{◌≡◌};
ghost use Rattle.rules.specs.Codes.{least};

// One code: PUK, PIN1 or PIN2.
#[repr(C)]
#[derive(Clone, Copy)]
pub struct Code {
    pub digits: [u8; 12],
    pub len: u8,
    pub tries: u8,
    pub verified: bool,
}

impl Code {
    // The codes' numbers, by which they stand in an array.
    pub const PUK: usize = 0;

    pub const PIN1: usize = 1;

    pub const PIN2: usize = 2;

    // The three tries that a right value or an unblocking gives a code.
    pub const TRIES: u8 = 3;

    // The greatest length of a code.
    pub const MOST: usize = 12;

    // The unblocking count that means no limit.
    pub const NO_LIMIT: u8 = 0xA5;

    // The least length of the code of a number.
    pub fn least(number: usize) -> usize
        ensures { result ≡ least number }
    {
        match number {
            0 => 8,
            1 => 4,
            _ => 5,
        }
    }
}

// A personal record of file 5044h.
#[repr(C)]
#[derive(Clone, Copy)]
pub struct Record {
    pub bytes: [u8; 64],
    pub len: u8,
}

// What load stores and no call changes: which of the keys 0100h, 0200h, 1100h, 1200h are present, the record of 0033h, and
// the personal records.
#[repr(C)]
#[derive(Clone, Copy)]
pub struct Profile {
    pub keys: [bool; 4],
    pub references: [u8; 21],
    pub personal: [Record; 16],
}

// The current directory and file; file 0 is none. Numbers, here and in the session's other parts, and no enums or Options: a state
// may hold any of them, and `good` says which are good.
#[repr(C)]
#[derive(Clone, Copy)]
pub struct Selection {
    pub directory: u16,
    pub file: u16,
}

// The security environment: its number, and the key chosen for job kinds 1 to 3; 0 is "active".
#[repr(C)]
#[derive(Clone, Copy)]
pub struct Environment {
    pub number: u16,
    pub choices: [u16; 3],
}

// The held answer, which GET RESPONSE reads.
#[repr(C)]
#[derive(Clone, Copy)]
pub struct Held {
    pub bytes: [u8; 256],
    pub len: u16,
}

// The chain: the parts of a cryptogram that DECIPHER joins, at most 257 bytes. The last place stays empty, so that no padding
// stands before the length.
#[repr(C)]
#[derive(Clone, Copy)]
pub struct Chain {
    pub bytes: [u8; 258],
    pub len: u16,
}

// The waiting job: kind 1 to 3, or 0 for none; its key; its Le, or 0 for none.
#[repr(C)]
#[derive(Clone, Copy)]
pub struct Job {
    pub kind: u16,
    pub key: u16,
    pub le: u16,
}

// What a power reset clears, beside the verified marks.
#[repr(C)]
#[derive(Clone, Copy)]
pub struct Session {
    pub selection: Selection,
    pub environment: Environment,
    pub held: Held,
    pub chain: Chain,
    pub job: Job,
}

// The card, all of it in fixed places, with no heap: each string has its length beside it. Beside its codes stand the unblocking
// counts of PIN1 and PIN2, in this order: a code that is stored anew leaves them as they are. Widths and order of all its fields
// leave no padding between or behind them.
#[repr(C)]
#[derive(Clone, Copy)]
pub struct Card {
    pub codes: [Code; 3],
    pub counts: [u8; 2],
    pub profile: Profile,
    pub session: Session,
}

// A command APDU's header, its Lc (0 where it has no data) and its Le (0 where it has none), as numbers: the rules compute with them.
#[derive(Clone, Copy)]
pub struct Header {
    pub cla: u8,
    pub ins: u8,
    pub p1: u8,
    pub p2: u8,
    pub lc: usize,
    pub le: u16,
}

// The commands, in document 01's order.
#[derive(Clone, Copy)]
pub enum Command {
    Select,
    ReadRecord,
    ReadBinary,
    GetResponse,
    Verify,
    Change,
    ResetRetry,
    SetEnvironment,
    ChooseKey,
    InternalAuthenticate,
    ComputeSignature,
    Decipher,
}

// How a presented value is judged.
#[derive(Clone, Copy)]
pub enum Verdict {
    Right,
    Wrong,
    NoTries,
}

// The codes after a command, and the status word that is its whole answer, a number as the papers print it.
#[derive(Clone, Copy)]
pub struct CodeStep {
    pub codes: [Code; 3],
    pub sw: u16,
}

// The edge's refusals; `refusal_number` gives document 01's numbers.
#[derive(Clone, Copy)]
pub enum Refusal {
    BadState,
    ShortBuffer,
    CertificateLength,
    JobWaiting,
    NoJobWaiting,
}

// The kinds of a job; `kind_number` gives document 01's numbers.
#[derive(Clone, Copy)]
pub enum JobKind {
    Authenticate,
    Sign,
    Decipher,
}

// What a call answers where the edge does not refuse it: the length of a response in the buffer; a job's kind and key, its block
// in the buffer; or that a power reset was done. `returned` gives document 01's numbers, of the edge's refusals too.
#[derive(Clone, Copy)]
pub enum Reply {
    Response(usize),
    HandedOut(JobKind, u16),
    WasReset,
}

// The faults of a card image; `fault_number` gives document 01's numbers.
#[derive(Clone, Copy)]
pub enum Fault {
    EndsEarly,
    WrongCount,
    BadCode,
    BadKey,
    BadReference,
    RecordLength,
    LeftOver,
    UnblockingCount,
}

// What load returns, a card in either case: the image's; or, with the fault, the all-zero state. `load_number` gives document 01's numbers.
#[derive(Clone, Copy)]
pub struct Loaded {
    pub card: Card,
    pub result: Result<(), Fault>,
}
