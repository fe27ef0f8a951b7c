ghost use Rattle.ending.specs.Ends.{Puts, IsPut, ending_of};

use crate::early::Early;
use crate::status::Status;
use outside::Sink;

/// How many bytes are put at once.
const PIECE: usize = 4096;

/// Puts the text in pieces, the last one shorter; whether the sink took it whole.
fn put_all<O: Sink>(out: &mut O, text: &[u8]) -> bool
    ensures { Puts (O.state out.old) (O.state out.new) text.now result }
{
    let mut at = 0;
    while at < text.len() {
        let size = (text.len() - at).min(PIECE);
        match out.put(&text[at..at + size]) {
            Ok(()) => at += size,
            Err(_) => return false,
        }
    }
    true
}

/// Puts the text; the status, or that of a write that failed.
pub fn put_as<O: Sink>(out: &mut O, status: Status, text: &[u8]) -> Status
    ensures { IsPut (O.state out.old) (O.state out.new) status text.now result }
{
    if put_all(out, text) {
        status
    } else {
        Status::WriteFault
    }
}

/// Ends a command: puts its answer, or what is due in its place.
pub fn finish<O: Sink>(out: &mut O, outcome: Result<Vec<u8>, Early>) -> Status
    ensures { IsPut (O.state out.old) (O.state out.new) (ending_of outcome).0 (ending_of outcome).1 result }
{
    match outcome {
        Ok(text) => put_as(out, Status::Done, &text),
        Err(Early::Said { verdict, text }) => put_as(out, verdict.status(), &text),
        Err(Early::Missing { text }) => put_as(out, Status::NoFile, &text),
        Err(Early::Fault { text }) => put_as(out, Status::ReadFault, &text),
        Err(Early::Memory) => put_as(out, Status::NoMemory, b"no memory\n"),
    }
}
