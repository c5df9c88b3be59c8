#![tactic(auto)]

// A command APDU: its length form.
ghost use Rattle.std.specs.Prelude.{◌≡◌};
ghost use Rattle.rules.specs.Numbers.{length_form};
ghost use Rattle.rules.specs.Apdu.{le_of, parse};
ghost use Rattle.apdu.specs.Reach.{le_in_reach};

use rules::Header;

// Where the data of a command start, if it has any.
const DATA_START: usize = 5;

// Le as the byte says it: 00 means 256.
fn le_of(x: u8) -> u16
    ensures { result ≡ le_of x }
{
    match x {
        0 => 256,
        _ => u16::from(x),
    }
}

// The length form of a command's bytes: its header with Lc and Le, and where its data start; none where it is malformed.
pub fn parse(apdu: &[u8]) -> Option<(Header, usize)>
    ensures { length_form result ≡ parse apdu.now }
{
    let n = apdu.len();
    if n < 4 {
        return None;
    }
    let header = Header {
        cla: apdu[0],
        ins: apdu[1],
        p1: apdu[2],
        p2: apdu[3],
        lc: 0,
        le: 0,
    };
    if n == 4 {
        return Some((header, DATA_START));
    }
    if n == 5 {
        let le = le_of(apdu[4]);
        return Some((Header { le, ..header }, DATA_START));
    }
    let lc = usize::from(apdu[4]);
    if lc == 0 {
        return None;
    }
    if n == 5 + lc {
        return Some((Header { lc, ..header }, DATA_START));
    }
    if n == 6 + lc {
        let le = le_of(apdu[n - 1]);
        return Some((Header { lc, le, ..header }, DATA_START));
    }
    None
}

// The header with no more than 256 as Le.
pub fn in_reach(h: Header) -> Header
    ensures { result ≡ le_in_reach h }
{
    Header {
        le: h.le.min(256),
        ..h
    }
}
