// The equation of two sides, as a script for string solvers has it: each side is its tokens and its hidden field, joined.
#![tactic(auto)]

ghost use Rattle.std.specs.Prelude.{◌≡◌, cond, []};
ghost use Rattle.paper_script.specs.Bytes.{bytes};
ghost use Rattle.base_put.specs.Counted.{Counted};
ghost use Rattle.base_codes.specs.Inner.{tokens};
ghost use Rattle.base_editions.specs.Editions.{paper_edition};
ghost use Rattle.script_equation.specs.Arguments.{digit_of, argument, all_arguments, constant, side_spelt, equation_spelt};

use base_codes::{CodedSide, FIELD_CODE, HIDDEN_LEFT, HIDDEN_RIGHT, length_of};
use base_editions::Edition;
use base_put::{put, put_all};
use script_characters::character;

// The opening quotation mark of a literal, if none is open.
fn before_character(out: &mut [u8], at: usize, literal: bool) -> usize
    ensures { Counted out.old out.new at result (cond literal [] (bytes " \"")) }
{
    if literal {
        return at;
    }
    put_all(out, at, b" \"")
}

// The closing one, if a literal is open, and the beginning of a constant.
fn before_field(out: &mut [u8], at: usize, literal: bool) -> usize
    ensures { Counted out.old out.new at result (cond literal (bytes "\" f") (bytes " f")) }
{
    if literal {
        return put_all(out, at, b"\" f");
    }
    put_all(out, at, b" f")
}

// A token as an argument: characters that stand together are one literal.
fn argument(out: &mut [u8], at: usize, edition: Edition, literal: bool, token: u8) -> usize
    ensures { Counted out.old out.new at result (argument (paper_edition edition) literal token) }
{
    if token < FIELD_CODE {
        let begun = before_character(out, at, literal);
        return character(out, begun, edition, token);
    }
    let begun = before_field(out, at, literal);
    put(out, begun, digit(token))
}

// The tokens of a side as arguments.
fn arguments(out: &mut [u8], at: usize, edition: Edition, tokens: &[u8]) -> usize
    ensures { Counted out.old out.new at result (all_arguments (paper_edition edition) tokens.now) }
{
    let mut end = at;
    let mut literal = false;
    for &token in tokens {
        end = argument(out, end, edition, literal, token);
        literal = token < FIELD_CODE;
    }
    if literal {
        return put(out, end, b'"');
    }
    end
}

// The constant of a field, by its token.
fn constant(out: &mut [u8], at: usize, token: u8) -> usize
    ensures { Counted out.old out.new at result (constant token) }
{
    let begun = put(out, at, b'f');
    put(out, begun, digit(token))
}

// The digit of a field, by its token.
fn digit(token: u8) -> u8
    ensures { result ≡ digit_of token }
{
    if token < FIELD_CODE {
        b'0'
    } else {
        b'0' + (token - FIELD_CODE)
    }
}

// A side and its hidden field; alone it is no sum.
fn side_term(out: &mut [u8], at: usize, edition: Edition, side: CodedSide, hidden: u8) -> usize
    ensures { Counted out.old out.new at result (side_spelt (paper_edition edition) (tokens side) hidden) }
{
    let n = length_of(side);
    if n == 0 {
        return constant(out, at, hidden);
    }
    let begun = put_all(out, at, b"(str.++");
    let end = arguments(out, begun, edition, &side[..n]);
    let gap = put(out, end, b' ');
    let behind = constant(out, gap, hidden);
    put(out, behind, b')')
}

// The equation, and the check command.
pub fn equation(
    out: &mut [u8],
    at: usize,
    edition: Edition,
    left: CodedSide,
    right: CodedSide,
) -> usize
    ensures { Counted out.old out.new at result (equation_spelt (paper_edition edition) (tokens left) (tokens right)) }
{
    let begun = put_all(out, at, b"(assert (= ");
    let behind_left = side_term(out, begun, edition, left, HIDDEN_LEFT);
    let gap = put(out, behind_left, b' ');
    let behind_right = side_term(out, gap, edition, right, HIDDEN_RIGHT);
    put_all(out, behind_right, b"))\n(check-sat)\n")
}
