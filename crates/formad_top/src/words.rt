use fl_base::Name;
use std::alloc::Global;
use std::env;
use std::io::ErrorKind;
use std::rt::Env;

/// Why the process has no words.
#[derive(Debug, Drop)]
pub(crate) enum ArgsError {
    /// One of them isn't UTF-8.
    NoText,
    Memory,
}

/// The words after the program's name.
pub(crate) fn args<R: Env + AllocGlobal>(rt: &R, alloc: Global) -> Result<Vec<Name>, ArgsError> {
    let args = match env::args(rt) {
        Ok(args) => args,
        Err(error) => {
            return Err(match error.kind() {
                ErrorKind::OutOfMemory => ArgsError::Memory,
                _ => ArgsError::NoText,
            });
        }
    };
    let mut words = Vec::new(alloc);
    for word in args.skip(1) {
        let Ok(name) = Name::of(alloc, word.as_bytes()) else {
            return Err(ArgsError::Memory);
        };
        if words.push(name).is_err() {
            return Err(ArgsError::Memory);
        }
    }
    Ok(words)
}
