#![tactic(auto)]

// The tests of a command's header that come before the command's own rules.
ghost use Rattle.std.specs.Prelude.{◌≡◌, ◌&&◌, eqb};
ghost use Rattle.rules.specs.Numbers.{naming};
ghost use Rattle.rules.specs.Judgement.{commands, instruction, parameters, lengths};
ghost use Rattle.rules.specs.Judgement.{known_class, known_instruction, bad_chaining, named_in};

use rules::{Command, Header};

// Step 2 of the order of judgement: class 00h or 10h.
pub fn known_class(h: Header) -> bool
    ensures { result ≡ known_class h }
{
    matches!(h.cla, 0x00 | 0x10)
}

// The commands, in document 01's order.
const COMMANDS: [Command; 12] = [
    Command::Select,
    Command::ReadRecord,
    Command::ReadBinary,
    Command::GetResponse,
    Command::Verify,
    Command::Change,
    Command::ResetRetry,
    Command::SetEnvironment,
    Command::ChooseKey,
    Command::InternalAuthenticate,
    Command::ComputeSignature,
    Command::Decipher,
];

#[tactic(auto, unfolding(rules::specs::Judgement::instruction))]
fn instruction(command: Command) -> u8
    ensures { result ≡ instruction command }
{
    match command {
        Command::Select => 0xA4,
        Command::ReadRecord => 0xB2,
        Command::ReadBinary => 0xB0,
        Command::GetResponse => 0xC0,
        Command::Verify => 0x20,
        Command::Change => 0x24,
        Command::ResetRetry => 0x2C,
        Command::SetEnvironment => 0x22,
        Command::ChooseKey => 0x22,
        Command::InternalAuthenticate => 0x88,
        Command::ComputeSignature => 0x2A,
        Command::Decipher => 0x2A,
    }
}

// Step 3: an instruction of the list.
pub fn known_instruction(h: Header) -> bool
    ensures { result ≡ known_instruction h }
{
    COMMANDS
        .iter()
        .any(|command| h.ins == instruction(*command))
}

// Step 4: class 10h with anything but 2A 80 86.
pub fn bad_chaining(h: Header) -> bool
    ensures { result ≡ bad_chaining h }
{
    h.cla == 0x10 && !matches!((h.ins, h.p1, h.p2), (0x2A, 0x80, 0x86))
}

// P1 and P2 of each command.
#[tactic(auto, unfolding(rules::specs::Judgement::parameters))]
fn parameters(command: Command, p1: u8, p2: u8) -> bool
    ensures { result ≡ parameters command p1 p2 }
{
    match command {
        Command::Select => p1 <= 0x02 && p2 == 0x0C,
        Command::ReadRecord => p1 != 0x00 && p2 == 0x04,
        Command::ReadBinary => p1 < 0x80,
        Command::GetResponse => p1 == 0x00 && p2 == 0x00,
        Command::Verify => p1 == 0x00 && p2 <= 2,
        Command::Change => p1 == 0x00 && p2 <= 2,
        Command::ResetRetry => matches!(p1, 0x00 | 0x03) && matches!(p2, 1 | 2),
        Command::SetEnvironment => p1 == 0xF3,
        Command::ChooseKey => p1 == 0x41 && matches!(p2, 0xA4 | 0xB6 | 0xB8),
        Command::InternalAuthenticate => p1 == 0x00 && p2 == 0x00,
        Command::ComputeSignature => p1 == 0x9E && p2 == 0x9A,
        Command::Decipher => p1 == 0x80 && p2 == 0x86,
    }
}

// Whether a header names a command.
fn names(h: Header, command: Command) -> bool
    ensures { result ≡ (eqb h.ins (instruction command) && parameters command h.p1 h.p2) }
{
    h.ins == instruction(command) && parameters(command, h.p1, h.p2)
}

// Step 5: the command that the header names.
pub fn named(h: Header) -> Option<Command>
    ensures { naming result ≡ named_in h commands }
{
    COMMANDS.iter().copied().find(|command| names(h, *command))
}

// Step 6: data and Le of each command.
#[tactic(auto, unfolding(rules::specs::Judgement::lengths))]
pub fn good_lengths(command: Command, h: Header) -> bool
    ensures { result ≡ lengths command h }
{
    let no_data = h.lc == 0;
    let has_data = 1 <= h.lc;
    let has_le = 1 <= h.le;
    match command {
        Command::Select if h.p1 == 0x00 => no_data,
        Command::Select => h.lc == 2,
        Command::ReadRecord => no_data,
        Command::ReadBinary => no_data && has_le,
        Command::GetResponse => no_data && has_le,
        Command::Verify => true,
        Command::Change => has_data,
        Command::ResetRetry if h.p1 == 0x03 => no_data,
        Command::ResetRetry => has_data,
        Command::SetEnvironment => no_data,
        Command::ChooseKey => has_data,
        Command::InternalAuthenticate => has_data && h.lc <= 245,
        Command::ComputeSignature => has_data,
        Command::Decipher => has_data,
    }
}
