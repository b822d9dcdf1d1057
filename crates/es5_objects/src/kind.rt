ghost use Rattle.std.specs.Prelude.{◌≡◌};
ghost use Rattle.es5_tree.specs.Objects.Cells.{is_array, has_length};
ghost use Rattle.es5_objects.specs.Values.{kind_of};

/// The kinds of cells.
#[derive(Clone, Copy, Debug, PartialEq, Eq, Drop)]
pub enum CellKind {
    /// A plain object.
    Object,
    Array,
    /// The `arguments` of a call.
    Arguments,
    /// A function: the number of its code, and the activation record in which it was made.
    Function { code: u32, scope: u32 },
    /// An intrinsic function, by its number from 0.
    Host(u32),
    /// An activation record, and the one around it.
    Record { outer: Option<u32> },
}

impl CellKind {
    /// Whether this is the kind of arrays.
    pub fn is_array(self) -> bool
        ensures { result ≡ is_array (kind_of self) }
    {
        matches!(self, CellKind::Array)
    }

    /// Whether cells of this kind have an own `length` that `Object.keys` doesn't list.
    pub fn has_length(self) -> bool
        ensures { result ≡ has_length (kind_of self) }
    {
        matches!(self, CellKind::Array | CellKind::Arguments)
    }
}
