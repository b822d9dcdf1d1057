//! Expressions from their first operand on, level by level (ECMA-262 5.1, 11.2 to 11.13).

ghost use Rattle.std.specs.Prelude.{◌≡◌, ◌<◌, ◌^◌};
ghost use Rattle.es5_reading.specs.Gives.{ahead};
ghost use Rattle.es5_reading.specs.Named.{Nests, GivesOperand};
ghost use Rattle.es5_parser.specs.Levels as spec;
ghost use Rattle.es5_parser.specs.Levels.{shown_start};

use crate::names::Parser;
use descent::Fail;
use es5_reading::parts::{Binary, Logical, Operand, Part, Reading};
use es5_reading::tokens::Tokens;
use es5_tree::Level;
use std::alloc::Global;

/// An operand, and whether a member, an index or a call can stand behind it.
#[derive(Drop)]
pub struct Start<'a> {
    pub operand: Operand<'a>,
    pub plain: bool,
}

impl<F: Fn(Global, &mut Tokens<'_>, Part, u32) -> Result<Reading, Fail>> Parser<F> {
    #[tactic(auto, unfolding(crate::specs::Levels::behind_unary))]
    fn behind_unary<'a>(
        &self,
        tokens: &mut Tokens<'a>,
        start: Start<'a>,
    ) -> Result<Operand<'a>, Fail>
        requires below { Nests self.now.depth (F.pre self.now.part) (F.post self.now.part) }
        requires levels { self.now.depth < 2 ^ 31 }
        ensures { GivesOperand (spec.behind_unary self.now.depth (shown_start start.entry) (ahead tokens.old)) result (ahead tokens.new) }
    {
        if !start.plain {
            return Ok(start.operand);
        }
        self.accesses(tokens, start.operand)
    }

    #[tactic(auto, unfolding(crate::specs::Levels::behind_product))]
    fn behind_product<'a>(
        &self,
        tokens: &mut Tokens<'a>,
        start: Start<'a>,
    ) -> Result<Operand<'a>, Fail>
        requires below { Nests self.now.depth (F.pre self.now.part) (F.post self.now.part) }
        requires levels { self.now.depth < 2 ^ 31 }
        ensures { GivesOperand (spec.behind_product self.now.depth (shown_start start.entry) (ahead tokens.old)) result (ahead tokens.new) }
    {
        let left = self.behind_unary(tokens, start)?;
        self.binaries(tokens, Binary::Product, left)
    }

    #[tactic(auto, unfolding(crate::specs::Levels::behind_sum))]
    fn behind_sum<'a>(&self, tokens: &mut Tokens<'a>, start: Start<'a>) -> Result<Operand<'a>, Fail>
        requires below { Nests self.now.depth (F.pre self.now.part) (F.post self.now.part) }
        requires levels { self.now.depth < 2 ^ 31 }
        ensures { GivesOperand (spec.behind_sum self.now.depth (shown_start start.entry) (ahead tokens.old)) result (ahead tokens.new) }
    {
        let left = self.behind_product(tokens, start)?;
        self.binaries(tokens, Binary::Sum, left)
    }

    #[tactic(auto, unfolding(crate::specs::Levels::behind_relation))]
    fn behind_relation<'a>(
        &self,
        tokens: &mut Tokens<'a>,
        start: Start<'a>,
    ) -> Result<Operand<'a>, Fail>
        requires below { Nests self.now.depth (F.pre self.now.part) (F.post self.now.part) }
        requires levels { self.now.depth < 2 ^ 31 }
        ensures { GivesOperand (spec.behind_relation self.now.depth (shown_start start.entry) (ahead tokens.old)) result (ahead tokens.new) }
    {
        let left = self.behind_sum(tokens, start)?;
        self.binaries(tokens, Binary::Relation, left)
    }

    #[tactic(auto, unfolding(crate::specs::Levels::behind_equality))]
    fn behind_equality<'a>(
        &self,
        tokens: &mut Tokens<'a>,
        start: Start<'a>,
    ) -> Result<Operand<'a>, Fail>
        requires below { Nests self.now.depth (F.pre self.now.part) (F.post self.now.part) }
        requires levels { self.now.depth < 2 ^ 31 }
        ensures { GivesOperand (spec.behind_equality self.now.depth (shown_start start.entry) (ahead tokens.old)) result (ahead tokens.new) }
    {
        let left = self.behind_relation(tokens, start)?;
        self.binaries(tokens, Binary::Equality, left)
    }

    #[tactic(auto, unfolding(crate::specs::Levels::behind_and))]
    fn behind_and<'a>(&self, tokens: &mut Tokens<'a>, start: Start<'a>) -> Result<Operand<'a>, Fail>
        requires below { Nests self.now.depth (F.pre self.now.part) (F.post self.now.part) }
        requires levels { self.now.depth < 2 ^ 31 }
        ensures { GivesOperand (spec.behind_and self.now.depth (shown_start start.entry) (ahead tokens.old)) result (ahead tokens.new) }
    {
        let left = self.behind_equality(tokens, start)?;
        self.logicals(tokens, Logical::And, left)
    }

    #[tactic(auto, unfolding(crate::specs::Levels::behind_or))]
    fn behind_or<'a>(&self, tokens: &mut Tokens<'a>, start: Start<'a>) -> Result<Operand<'a>, Fail>
        requires below { Nests self.now.depth (F.pre self.now.part) (F.post self.now.part) }
        requires levels { self.now.depth < 2 ^ 31 }
        ensures { GivesOperand (spec.behind_or self.now.depth (shown_start start.entry) (ahead tokens.old)) result (ahead tokens.new) }
    {
        let left = self.behind_and(tokens, start)?;
        self.logicals(tokens, Logical::Or, left)
    }

    #[tactic(auto, unfolding(crate::specs::Levels::behind_test))]
    fn behind_test<'a>(
        &self,
        tokens: &mut Tokens<'a>,
        start: Start<'a>,
    ) -> Result<Operand<'a>, Fail>
        requires below { Nests self.now.depth (F.pre self.now.part) (F.post self.now.part) }
        requires levels { self.now.depth < 2 ^ 31 }
        ensures { GivesOperand (spec.behind_test self.now.depth (shown_start start.entry) (ahead tokens.old)) result (ahead tokens.new) }
    {
        let test = self.behind_or(tokens, start)?;
        self.conditional(tokens, test)
    }

    /// The operators behind the first operand of an expression.
    #[tactic(auto, unfolding(crate::specs::Levels::behind_target))]
    pub fn behind_target<'a>(
        &self,
        tokens: &mut Tokens<'a>,
        start: Start<'a>,
    ) -> Result<Operand<'a>, Fail>
        requires below { Nests self.now.depth (F.pre self.now.part) (F.post self.now.part) }
        requires levels { self.now.depth < 2 ^ 31 }
        ensures { GivesOperand (spec.behind_target self.now.depth (shown_start start.entry) (ahead tokens.old)) result (ahead tokens.new) }
    {
        let target = self.behind_test(tokens, start)?;
        self.assigned(tokens, target)
    }

    /// The operators of a level and of the tighter ones behind the first operand.
    #[tactic(auto)]
    pub fn behind<'a>(
        &self,
        tokens: &mut Tokens<'a>,
        level: Level,
        start: Start<'a>,
    ) -> Result<Operand<'a>, Fail>
        requires below { Nests self.now.depth (F.pre self.now.part) (F.post self.now.part) }
        requires levels { self.now.depth < 2 ^ 31 }
        ensures { GivesOperand (spec.behind level self.now.depth (shown_start start.entry) (ahead tokens.old)) result (ahead tokens.new) }
    {
        match level {
            Level::Assignment => self.behind_target(tokens, start),
            Level::And => self.behind_and(tokens, start),
            Level::Equality => self.behind_equality(tokens, start),
            Level::Relational => self.behind_relation(tokens, start),
            Level::Additive => self.behind_sum(tokens, start),
            Level::Multiplicative => self.behind_product(tokens, start),
            Level::Unary | Level::Call => self.behind_unary(tokens, start),
        }
    }
}
