//! Laws of the definitions that the contracts cite.

ghost use Rattle.opal_base.specs.Laws.{OneText, TextPrintedBack, DecodedOrNot, OneOffset, DecodedFits, PlacesBegin, PlacesGoOn};

/// Bytes are the UTF-8 of one text at most.
pub fn one_text()
    ensures { OneText }
{}

/// A text that was decoded from bytes is written as the same bytes.
pub fn text_printed_back()
    ensures { TextPrintedBack }
{}

/// Bytes that are UTF-8 only up to an offset are the UTF-8 of no text.
pub fn decoded_or_not()
    ensures { DecodedOrNot }
{}

/// Bytes that are UTF-8 only up to an offset are so up to this one alone.
pub fn one_offset()
    ensures { OneOffset }
{}

/// A decoded text has no more units than bytes, and its units have 16 bits.
pub fn decoded_fits()
    ensures { DecodedFits }
{}

/// A text begins at line 0 and column 0, and each further place follows from the one before it
/// and the unit between them.
pub fn places_go_on()
    ensures begin { PlacesBegin }
    ensures go_on { PlacesGoOn }
{}
