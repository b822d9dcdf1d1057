//! Laws of the definitions, each the contract of a function that does nothing.

ghost use Rattle.es5_host.specs.Laws.{FunctionsInOrder, GetNames, GlobalsAreMade, MadeAreCounted, MadeIsValid, NamesStay, OthersAreAdded, OthersAreUnread, OwnNames, PlacesAreRead, PlacesAreWritten, ValidAfterCreate, ValidAfterDelete, ValidAfterLink, ValidAfterNew, ValidAfterPut};

/// The intrinsic objects are a valid heap, the globals name some of them, and the functions stand in
/// the order of their numbers.
pub fn intrinsics_stand()
    ensures counted { MadeAreCounted }
    ensures valid { MadeIsValid }
    ensures globals { GlobalsAreMade }
    ensures functions { FunctionsInOrder }
{}

/// A valid heap stays valid where an object is made, and where a property is written or deleted or a
/// link is set, with values and links that name objects of it.
pub fn heaps_stay_valid()
    ensures put { ValidAfterPut }
    ensures delete { ValidAfterDelete }
    ensures link { ValidAfterLink }
    ensures new { ValidAfterNew }
    ensures create { ValidAfterCreate }
{}

/// What is read from a valid heap names objects of it, also in the heap that it becomes.
pub fn read_values_are_named()
    ensures own { OwnNames }
    ensures get { GetNames }
    ensures stay { NamesStay }
{}

/// The first place of a name is where its value is read and written.
pub fn places_tell_values()
    ensures read { PlacesAreRead }
    ensures written { PlacesAreWritten }
    ensures unread { OthersAreUnread }
    ensures added { OthersAreAdded }
{}
