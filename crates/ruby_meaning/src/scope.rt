ghost use Rattle.std.specs.Prelude.{◌≡◌, [], ◌∷◌, ◌++◌, OnOk, OnErr, false};
ghost use Rattle.ruby_meaning.specs.Scoping.Names.{has, with_name};

use crate::construct::Construct;
use crate::tree::Program;
use name_set::NameSet;
use opal_base::{Names, NoMemory, Pos, Units};
use sqlite_items::Items;
use std::alloc::Global;
use std::marker::Model;

/// What a place of the text gives to a source map.
#[derive(Clone, Copy, Debug, PartialEq, Eq)]
pub enum SiteKind {
    Call,
    Literal,
    Local,
    Definition,
}

/// A place of the text that a source map names, with the name that stands there.
#[derive(Drop)]
pub struct Site {
    pub pos: Pos,
    pub name: Option<Units>,
    pub kind: SiteKind,
}

pub type Sites = Items<Site>;

/// The locals of a file, a method body, a module body, a block or a lambda: its own, and those of
/// outer scopes that it names. Each list holds a name once, in the order in which the text first
/// has it.
#[derive(Drop)]
pub struct Scope {
    pub own: Names,
    pub outer: Names,
}

pub type Scopes = Items<Scope>;

/// A program with its scopes in the order of the text, the names that its calls look up, each once
/// in the order of the nodes, and the places that a source map names.
#[derive(Drop)]
pub struct Resolved {
    pub program: Program,
    pub scopes: Scopes,
    pub calls: Names,
    pub sites: Sites,
}

/// A place that is refused, and why.
#[derive(Clone, Copy, Debug, PartialEq, Eq)]
pub struct Refusal {
    pub pos: Pos,
    pub construct: Construct,
}

/// Names in the order in which they came, each once.
#[derive(Drop)]
pub struct NameList {
    names: Names,
    // The same names, by which they are looked up; none once memory was short.
    set: Option<NameSet>,
}

impl Model for NameList {
    ghost use Rattle.std.specs.Prelude.{◌≡◌, List, ℕ, IfSome};

    ghost Value = { List (List ℕ) };

    ghost view = { λ list. list.names };

    ghost invariant = { λ list. IfSome list.set (λ set. set ≡ list.names) };
}

impl NameList {
    /// No names.
    pub fn new(alloc: Global) -> NameList
        ensures { result ≡ [] }
    {
        NameList {
            names: Names::new(alloc),
            set: Some(NameSet::new(alloc)),
        }
    }

    /// Whether a name is among them.
    #[tactic(auto, using(crate::proofs::Scoping::Listing::found))]
    pub fn contains(&self, name: &[u16]) -> bool
        ensures { result ≡ has self.now name.now }
    {
        match &self.set {
            Some(set) => set.contains(name),
            None => is_listed(&self.names, name),
        }
    }

    /// Puts a name at the end, if it isn't among them. Where no memory is found, nothing changes.
    #[tactic(auto, unfolding(crate::specs::Scoping::Names::with_name))]
    pub fn insert(&mut self, name: &Units) -> Result<(), NoMemory>
        ensures ok { OnOk result (self.new ≡ with_name self.old name.now) }
        ensures err { OnErr result (self.new ≡ self.old) }
    {
        if self.contains(name.as_slice()) {
            return Ok(());
        }
        self.add(name)
    }

    // The name isn't among them.
    fn add(&mut self, name: &Units) -> Result<(), NoMemory>
        requires { has self.old name.now ≡ false }
        ensures ok { OnOk result (self.new ≡ self.old ++ name.now ∷ []) }
        ensures err { OnErr result (self.new ≡ self.old) }
    {
        let copy = name.try_clone()?;
        match self.set.take() {
            Some(mut set) => {
                set.insert(name)?;
                self.names.push(copy)?;
                self.set = Some(set);
                Ok(())
            }
            None => self.names.push(copy),
        }
    }

    /// The names as a list.
    pub fn into_names(self) -> Names
        ensures { result ≡ self }
    {
        let NameList { names, set: _ } = self;
        names
    }
}

// Whether a name is in a list.
#[tactic(auto, using(crate::proofs::Scoping::Lists::drop_at), unfolding(crate::specs::Scoping::Names::has))]
fn is_listed(names: &Names, name: &[u16]) -> bool
    ensures { result ≡ has names.now name.now }
{
    for i in 0..names.len() {
        if names.at(i).as_slice() == name {
            return true;
        }
    }
    false
}

/// What a node is to the form that holds it.
#[derive(Clone, Copy, Debug, PartialEq, Eq)]
pub enum Role {
    /// A value or a statement.
    Plain,
    /// The condition of an `if`, a loop or a `when` without a subject.
    Condition,
    /// A target of a multiple assignment.
    Target,
    /// The text that `puts` writes.
    Shown,
}

/// What stands around a place: whether it is in a `def`, which jumps have a target there, and what
/// the node is to the form that holds it.
#[derive(Clone, Copy, Debug, PartialEq, Eq)]
pub struct Around {
    pub in_def: bool,
    /// In a `def` or a lambda.
    pub returns: bool,
    /// In a loop, a block or a lambda.
    pub breaks: bool,
    /// In the body of a rescue clause.
    pub retries: bool,
    pub role: Role,
}

/// What stands before a place of the text.
#[derive(Drop)]
pub struct Seen {
    /// The locals of the scope.
    pub own: NameList,
    /// The parameters of the scope.
    pub params: NameList,
    /// The locals of outer scopes that the scope names.
    pub named: NameList,
    /// The locals of the outer scopes that a block sees, the outermost first.
    pub outer: Items<NameList>,
    /// The scopes within this one, in the order of the text.
    pub scopes: Scopes,
    pub calls: NameList,
    /// The first place that is refused.
    pub refusal: Option<Refusal>,
    /// The first start of a node whose form isn't built yet.
    pub unbuilt: Option<Pos>,
}
