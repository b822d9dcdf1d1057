//! Grammars as data, and one theorem for each that passes its checks.
//!
//! A grammar is a table of productions (`specs/Rules.antt`). `specs/Spelling.antt` says which values a
//! list of tokens spells, and which lists are fronts, whose nodes are within a number of levels;
//! `specs/Checks.antt` what a table has to meet so that one token tells how to go on (`Predictive`);
//! `specs/Readers.antt` has the reader of a table. The laws hold for each table that meets its checks.
//!
//! A user names the classes of its tokens by numbers (`code`), writes each production as a rule, and
//! writes for each name the classes that begin it (`name_first`) and those that can go on behind it
//! (`name_continues`; `name_goes_on` may leave some out where the value tells). `specs/Statements.antt`
//! is a small grammar with a production of each form, `proofs/SmallGrammarMeets.antt` its checks: most
//! are `refl`, a node's is an equation of depths. A failing one shows the classes that clash, as
//! `4 ∷ [] ≡ []`. Each name in a production stands under a node of it or behind a token of it, so a
//! production that is only another one is written out.
//!
//! The forms of rules:
//!
//! - `token`, `token_where`: a token of a class, and one that meets a condition
//! - `absent`: no token, for a value
//! - `sequence`, `choice`, `many`: one after the other, one or the other, any number
//! - `bind`: a sequence whose second part hangs on the value of the first
//! - `view`, `node`: the parts as another value, and as a node above them
//! - `suffixes`, `suffix`: any number of parts behind a whole, or at most one where its value may have
//!   one; each makes a value so many levels above what stands before it and itself
//! - `starting`: a rule that begins with a token of a class
//! - `needs`: a rule that begins only where there are so many levels
//! - `named`: the production of that name, which has a sort of its own
//!
//! A parser's function for a rule answers as `read_rule` of that rule, and unfolds its own rule alone;
//! the one for names answers as `read_named` (`reads_names`). Parentheses that make no node are read
//! without recursion by `parentheses`.
#![tactic(auto)]

mod laws;

pub use laws::{
    fronts, one_answer, one_value, parentheses, reads_all, reads_names, small_grammar, small_lists,
};
