ghost use Rattle.std.specs.Prelude.{◌≡◌};
ghost use Rattle.meaning.specs.Sites.{word_of as word_of_lem};
ghost use Rattle.meaning.specs.Expressions.{content};
ghost use Rattle.meaning.specs.Statements.{content_at};

use meaning::Value;

/// The word of a content, 0 where there is none.
#[inline(always)]
pub(crate) fn word_of(content: Option<Value>) -> u64
    ensures { result ≡ word_of_lem content }
{
    match content {
        None => 0,
        Some(value) => value.as_dual().value.word(),
    }
}

/// The content of a place.
#[inline(always)]
pub(crate) fn cell(cells: &[Option<Value>], place: u32) -> Option<Value>
    ensures { result ≡ content cells.now place }
{
    if (place as usize) < cells.len() {
        cells[place as usize]
    } else {
        None
    }
}

/// The content of a place, where there is one.
#[inline(always)]
pub(crate) fn cell_at(cells: &[Option<Value>], place: Option<u32>) -> Option<Value>
    ensures { result ≡ content_at cells.now place }
{
    match place {
        None => None,
        Some(place) => cell(cells, place),
    }
}
