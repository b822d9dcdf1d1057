//! Laws of the definitions, each the contract of a function that does nothing.

ghost use Rattle.both_meanings.specs.Law.{Law};
ghost use Rattle.both_meanings.specs.Small.{SmallSimulates, MethodCall, BlockCall, TokenJump};

use ruby_evaluation::one_unit_more;

/// Where a script's statements follow the evaluation of a program with every number of units, both runs agree.
pub fn agreement()
    ensures { Law }
{
    one_unit_more();
}

/// In a small setting of whole numbers, self, `next` and `return` the statements of each node simulate it.
pub fn small_simulates()
    ensures { SmallSimulates }
{}

/// There a call of a method that Ruby's search finds is followed by a call of the function found along the links of the value.
pub fn method_call()
    ensures { MethodCall }
{}

/// There a call of a proc made of a block is followed by a call of its object with the self of its frame.
pub fn block_call()
    ensures { BlockCall }
{}

/// There a jump to the token of a call with a literal block ends that call, and any other result goes on.
pub fn token_jump()
    ensures { TokenJump }
{}
