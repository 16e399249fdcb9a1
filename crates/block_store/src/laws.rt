//! Laws of rows of bytes, each a function whose contract is the law.

ghost use Rattle.block_store.specs.Laws.{BytesAreThere, OthersStay, NumberIsRead};

/// Bytes that were put into a row stand in it.
pub fn bytes_are_there()
    ensures { BytesAreThere }
{}

/// All other bytes of the row are as they were.
pub fn others_stay()
    ensures { OthersStay }
{}

/// A number whose four bytes were put into a row is read there.
pub fn number_is_read()
    ensures { NumberIsRead }
{}
