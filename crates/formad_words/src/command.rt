ghost use Rattle.std.specs.Prelude.{◌≡◌};
ghost use Rattle.formad_words.specs.Commands.{command_in};

use crate::text::is_text;

/// The first word.
#[derive(Clone, Copy, Debug, PartialEq, Eq)]
pub(crate) enum Command {
    Adjoint,
    Prove,
    Check,
    Report,
    Tangent,
    Run,
    Replay,
    Load,
}

pub(crate) fn command_named(word: &[u8]) -> Option<Command>
    ensures { result ≡ command_in word.now }
{
    if is_text(word, b"adjoint") {
        Some(Command::Adjoint)
    } else if is_text(word, b"prove") {
        Some(Command::Prove)
    } else if is_text(word, b"check") {
        Some(Command::Check)
    } else if is_text(word, b"report") {
        Some(Command::Report)
    } else if is_text(word, b"tangent") {
        Some(Command::Tangent)
    } else if is_text(word, b"run") {
        Some(Command::Run)
    } else if is_text(word, b"replay") {
        Some(Command::Replay)
    } else if is_text(word, b"load") {
        Some(Command::Load)
    } else {
        None
    }
}
