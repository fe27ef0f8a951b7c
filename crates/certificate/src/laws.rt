//! Laws on the text of certificates.

ghost use Rattle.certificate.specs.Laws.{PrintedIsRead};

/// A printed certificate is read back as the same derivations, each with the number of the line where its `pair` stands. Numbers have to be
/// of the 32 bits that the types of derivations give them.
pub fn printed_is_read()
    ensures { PrintedIsRead }
{}
