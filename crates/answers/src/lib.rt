#![tactic(auto)]

// What a command or a delivery answers, and the one function that writes it to a caller's buffer.
ghost use Rattle.std.specs.Prelude.{◌≡◌, ◌≤◌, ◌+◌, [], length, take};
ghost use Rattle.rules.specs.declared.Card.{Card};
ghost use Rattle.rules.specs.Numbers.{kind_number, returned};
ghost use Rattle.rules.specs.Answers.{response, job};
ghost use Rattle.rules.specs.Edge.{response_in};
ghost use Rattle.answers.specs.Outputs.{output_for, output_of, written_or};

use rules::{JobKind, Refusal, Reply};

// Response data or a job's block: the first len of these bytes, with zeros in the unused places. In fixed places, since there is no
// heap.
#[derive(Clone, Copy)]
pub struct Data {
    pub bytes: [u8; 256],
    pub len: usize,
}

// What is answered: response data and a status word; or a job of a kind, with its key and its block. A status word is a number, here and
// below, as the card writes it and the papers print it; two of them carry a count (63Cx, 61xx).
#[derive(Clone, Copy)]
pub enum Output {
    Response(Data, u16),
    Job(JobKind, u16, Data),
}

// A status word alone.
pub fn status(sw: u16) -> Output
    ensures { result ≡ output_for (response [] sw) }
{
    let bytes = [0u8; 256];
    Output::Response(Data { bytes, len: 0 }, sw)
}

// Response data, at most 256 bytes of it, and a status word.
pub fn with_data(d: &[u8], sw: u16) -> Output
    ensures { result ≡ output_for (response (take 256 d.now) sw) }
{
    let bytes = arrays::filled::<256>(d);
    let len = octets::part(d, 0, 256).len();
    Output::Response(Data { bytes, len }, sw)
}

// A job for the key host.
pub fn handed_out(kind: JobKind, key: u16, block: [u8; 256]) -> Output
    ensures { result ≡ output_for (job (kind_number kind) key block) }
{
    let data = Data {
        bytes: block,
        len: 256,
    };
    Output::Job(kind, key, data)
}

// Data and a status word, written to a buffer that has room for them.
fn write_response(d: Data, sw: u16, buffer: &mut [u8]) -> usize
    requires { 258 ≤ length buffer.old }
    ensures { (result ≡ length (take d.len d.bytes) + 2) × (buffer.new ≡ response_in buffer.old (take d.len d.bytes) sw) }
{
    let shown = octets::part(&d.bytes, 0, d.len);
    let end = shown.len();
    writing::copy_at(buffer, 0, shown);
    let [high, low] = sw.to_be_bytes();
    buffer[end] = high;
    buffer[end + 1] = low;
    end + 2
}

// Writes an answer to a buffer of at least 258 bytes, and no byte more: data and status word, or a job's block. No card is touched: the
// clause says it of every card.
pub fn write(output: Output, buffer: &mut [u8]) -> Result<Reply, Refusal>
    ensures { (card : Card) → record { returned = returned result; card = card; buffer = buffer.new } ≡ written_or buffer.old card (output_of output) }
{
    if buffer.len() < 258 {
        return Err(Refusal::ShortBuffer);
    }
    match output {
        Output::Response(data, sw) => Ok(Reply::Response(write_response(data, sw, buffer))),
        Output::Job(kind, key, data) => {
            let block = octets::part(&data.bytes, 0, data.len);
            writing::copy_at(buffer, 0, block);
            Ok(Reply::HandedOut(kind, key))
        }
    }
}
