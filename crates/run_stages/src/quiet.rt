ghost use Rattle.std.specs.Prelude.{◌≡◌, IfOk};
ghost use Rattle.fl_types.specs.Sharing.{has_name as has_name_lem};
ghost use Rattle.answers.specs.Sweeps.{quiet_words, quiet_entry as quiet_entry_lem, quieted as quieted_lem};

use fl_base::{Items, Memory, Name};
use fl_types::NameSet;
use std::alloc::Global;
use store_core::{Entry, Weights};

fn has_name(names: &[Name], name: &Name) -> bool
    ensures { result ≡ has_name_lem name.now names.now }
{
    names.iter().any(|other| name.is(other))
}

fn words_of(alloc: Global, is_active: bool, words: &[u64]) -> Result<Items<u64>, Memory>
    ensures { IfOk result (λ all. all ≡ quiet_words is_active words.now) }
{
    if is_active {
        Items::from_slice(alloc, words)
    } else {
        Ok(Items::from_vec(vec![in alloc; 0u64; words.len()]?))
    }
}

fn quiet_entry(alloc: Global, active: &[Name], entry: &Entry) -> Result<Entry, Memory>
    ensures { IfOk result (λ quiet. quiet ≡ quiet_entry_lem (λ x. has_name_lem x active.now) entry.now) }
{
    let is_active = has_name(active, &entry.name);
    Ok(Entry {
        name: entry.name.clone(alloc)?,
        scalar: entry.scalar,
        words: words_of(alloc, is_active, entry.words.as_slice())?,
    })
}

/// Zeros in place of the words of names that aren't active: no data flows from them.
pub(crate) fn quieted(alloc: Global, active: &NameSet, weights: &Weights) -> Result<Weights, Memory>
    ensures { IfOk result (λ quiet. quiet ≡ quieted_lem (λ x. has_name_lem x active.now.names) weights.now) }
{
    let mut entries = Items::new(alloc);
    for entry in weights.entries.as_slice() {
        entries.push(quiet_entry(alloc, active.names.as_slice(), entry)?)?;
    }
    Ok(Weights { entries })
}
