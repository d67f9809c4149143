//! Laws of what is written and read. Each is the contract of a function that does nothing.

ghost use Rattle.journal.specs.Laws.{HeaderIsRead, OneByteShows};

/// Where one byte is another, the sum is another. (Two changed bytes may hide each other: it is no digest.)
pub fn one_changed_byte_shows()
    ensures { OneByteShows }
{}

/// A header that was written is read, whatever stands behind it.
pub fn written_header_is_read()
    ensures { HeaderIsRead }
{}
