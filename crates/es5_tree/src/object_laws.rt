//! Laws of the definitions of objects, each the contract of a function that does nothing.

ghost use Rattle.es5_tree.specs.Objects.Laws.{ChainsAreWhole, IndicesAreSpelled, PutIsRead, OthersStay, DeletedIsGone, OthersStayUndeleted, KeysAreNames, RisingIsSorted};

/// Where links make no cycle, following more links than there are objects finds no further ones.
pub fn chains_are_whole()
    ensures { ChainsAreWhole }
{}

/// A name is an array index exactly where it is the decimal spelling of a number below 2^32-1.
pub fn indices_are_spelled()
    ensures { IndicesAreSpelled }
{}

/// A property that was written has the value written, one that was deleted is gone, and the others
/// stay as they are, but where the `length` of an array is written.
pub fn properties_change_apart()
    ensures read { PutIsRead }
    ensures gone { DeletedIsGone }
    ensures put_apart { OthersStay }
    ensures delete_apart { OthersStayUndeleted }
{}

/// The names that are listed are those of the own properties, but for the `length` of arrays and
/// arguments objects.
pub fn keys_are_names()
    ensures { KeysAreNames }
{}

/// Numbers in rising order are their one sorted arrangement.
pub fn rising_is_sorted()
    ensures { RisingIsSorted }
{}
