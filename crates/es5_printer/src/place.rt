use sqlite_items::Items;

/// Where in a script's text the token of a site begins: line and column from 0, the column in bytes.
#[derive(Clone, Copy, Debug, PartialEq, Eq)]
pub struct Place {
    pub line: u32,
    pub col: u32,
    /// The number of the site.
    pub origin: u32,
}

pub type Places = Items<Place>;
