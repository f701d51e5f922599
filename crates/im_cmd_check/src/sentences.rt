ghost use Rattle.std.specs.Prelude.{◌≡◌};
ghost use Rattle.im_cmd_check.specs.Sentences.{closing as closing_of};
ghost use Rattle.im_cmd_check.specs.Sentences.{limit_sentence as limit_sentence_of};
ghost use Rattle.im_cmd_check.specs.Sentences.{opening as opening_of};
ghost use Rattle.im_cmd_check.specs.Sentences.{rule_sentence as rule_sentence_of};
ghost use Rattle.im_cmd_check.specs.Sentences.{syntax_sentence as syntax_sentence_of};
ghost use Rattle.im_cmd_check.specs.Sentences.{within as within_of};

use im_fault::Quantity;

/// What a typing rule asks for, in one sentence.
pub fn rule_sentence(rule: u32) -> &'static [u8]
    ensures { result.now ≡ rule_sentence_of rule }
{
    match rule {
        1 => b"these words name no type",
        2 => b"typedef, extern or static can't stand here",
        3 => b"this name is declared already, or with another type",
        4 => b"a typedef's name can't name something else",
        5 => b"this needs a complete object type",
        6 => b"an array's length is a constant of at least 1",
        7 => b"a struct's members stand once, at file scope, under different names",
        8 => b"an enum's list stands once, at file scope, and its constants fit in int",
        9 => b"functions take integers and pointers, and give these or void",
        10 => b"no pointer points to void or to a function",
        11 => b"a body stands behind a function whose parameters have names",
        12 => b"this is used and has no definition in the source",
        13 => b"the source needs int main(void) with a body",
        14 => b"a static's first value is a constant or an address",
        15 => b"this is no constant expression",
        16 => b"the initialiser hasn't the shape of its object",
        17 => b"the value doesn't fit its target",
        18 => b"this name isn't declared before it, or names a function that isn't called",
        19 => b"only a function's name is called, with as many arguments as it has parameters",
        20 => b"a[b] takes a pointer to a complete type and an integer",
        21 => b"there is no such member here",
        22 => b"this needs an lvalue",
        23 => b"an array, or what is const, can't be changed",
        24 => b"unary * takes a pointer to a complete type",
        25 => b"the operand has to be an integer, or for ! && || and conditions a pointer",
        26 => b"this operator takes two integers",
        27 => b"+ and - take integers, or a pointer to a complete type with an integer or its like",
        28 => b"an order takes two integers, or two pointers to the same type",
        29 => b"== and != take two integers, two pointers to the same type, or a pointer and 0",
        30 => b"this operator can't change its operand so",
        31 => b"the two results of ?: have no type in common",
        32 => b"a cast is from an integer to an integer type, or to void",
        33 => b"sizeof takes a complete object type",
        34 => b"this statement can't stand here",
        _ => b"",
    }
}

/// What stands in front of a token.
pub fn opening(token: &[u8]) -> &'static [u8]
    ensures { result.now ≡ opening_of token.now }
{
    if token.is_empty() { b"" } else { b" at '" }
}

/// What stands behind a token or a name.
pub fn closing(token: &[u8]) -> &'static [u8]
    ensures { result.now ≡ closing_of token.now }
{
    if token.is_empty() { b"" } else { b"'" }
}

/// What stands in front of a name.
pub fn within(name: &[u8]) -> &'static [u8]
    ensures { result.now ≡ within_of name.now }
{
    if name.is_empty() { b"" } else { b" in '" }
}

/// Why the grammar doesn't go on.
pub fn syntax_sentence(token: &[u8]) -> &'static [u8]
    ensures { result.now ≡ syntax_sentence_of token.now }
{
    if token.is_empty() {
        b"the text ends too early"
    } else {
        b"no unit goes on with it"
    }
}

/// What a limit asks for, in one sentence.
pub fn limit_sentence(quantity: Quantity) -> &'static [u8]
    ensures { result.now ≡ limit_sentence_of quantity }
{
    match quantity {
        Quantity::Source => b"a source has at most 4194304 bytes",
        Quantity::Parameters => b"a function has at most 8 parameters",
        Quantity::Size => b"a type has at most 1048576 bytes",
        Quantity::Statics => b"all statics have at most 1048576 bytes",
        Quantity::Frame => b"a function's locals and temporary values have at most 65536 bytes",
        Quantity::Code => b"all code has at most 1044480 bytes",
        Quantity::Derivations =>
            b"a typedef name stands for at most 250 pointers, arrays and functions",
    }
}
