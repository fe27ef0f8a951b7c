ghost use Rattle.std.specs.Prelude.{◌≡◌};
ghost use Rattle.formad_words.specs.Schedules.{schedule_by, schedule_in};

use crate::number::read_number;
use crate::text::{is_text, mark_at};
use fl_ast::Schedule;

/// The largest size of a chunk.
const CHUNK: u32 = 1_048_576;

fn sized(kind: &[u8], size: Option<u32>) -> Option<Schedule>
    ensures { result ≡ schedule_by kind.now size }
{
    let size = size?;
    if is_text(kind, b"static") {
        Some(Schedule::StaticBy(size))
    } else if is_text(kind, b"dynamic") {
        Some(Schedule::DynamicBy(size))
    } else if is_text(kind, b"guided") {
        Some(Schedule::GuidedBy(size))
    } else {
        None
    }
}

#[tactic(auto, unfolding(crate::specs::Schedules::schedule_in))]
/// `static`, `static:C`, `dynamic:C` or `guided:C`.
pub(crate) fn read_schedule(text: &[u8]) -> Option<Schedule>
    ensures { result ≡ schedule_in text.now }
{
    if is_text(text, b"static") {
        return Some(Schedule::Static);
    }
    let at = mark_at(text, b':')?;
    sized(&text[..at], read_number(&text[at + 1..], CHUNK))
}
