//! What is known of scalars where an access stands.

ghost use Rattle.std.specs.Prelude.{◌≡◌, IfOk, option_map};
ghost use Rattle.index_forms.specs.Origins.{origin_in};

use fl_base::Name;

/// What a scalar's value comes from.
#[derive(Clone, Copy)]
pub enum Origin {
    /// What no form says.
    Unknown,
    /// The scalar is the variable of the sequential loop with this number.
    Turn(u32),
    /// The assignment with this number.
    Assigned(u32),
}

/// What was said of a name.
#[derive(Drop)]
pub struct Entry {
    pub name: Name,
    pub origin: Origin,
}

/// What was said last of the name.
pub fn find_origin(entries: &[Entry], name: &Name) -> Option<Origin>
    ensures { result ≡ origin_in entries.now name.now }
{
    for i in (0..entries.len()).rev() {
        let entry = &entries[i];
        if name.is(&entry.name) {
            return Some(entry.origin);
        }
    }
    None
}
