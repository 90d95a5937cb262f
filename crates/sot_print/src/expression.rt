//! Expressions, with parentheses round their operands.
ghost use Rattle.std.specs.Prelude.{◌≡◌, ◌++◌, ◌∷◌, [], not, if◌then◌else◌, codes, OnOk};
ghost use Rattle.std.specs.String.{string_bytes};
ghost use Rattle.sot_syntax_tree.specs.TreeViews.{tree_view};
ghost use Rattle.sot_print.specs.Words.{blanks, laid, keyword, sign};
ghost use Rattle.sot_print.specs.Expressions.{operator, function_name, is_plain, grouped_words};
ghost use Rattle.sot_print.specs.Expressions.{operand_words, expression_words};
ghost use Rattle.sot_print.specs.Leaves.{literal_words, listed};
ghost use Rattle.sot_print.specs.declared.gap.Gap.TheVariants.{Touching, Space};

use crate::gap::{Gap, push_comma, push_word};
use crate::leaf::{push_ident, push_literal, push_member, push_truth};
use sot_syntax_tree::{Expr, Func, Lit, Op};
use std::alloc::AllocError;

fn operator_text(op: Op) -> &'static str
    ensures { result.now ≡ (operator op).text }
{
    match op {
        Op::Add => "+",
        Op::Sub => "-",
        Op::Mul => "*",
        Op::Div => "/",
        Op::Less => "<",
        Op::LessEqual => "<=",
        Op::Greater => ">",
        Op::GreaterEqual => ">=",
        Op::Equal => "==",
        Op::NotEqual => "!=",
        Op::And => "and",
        Op::Or => "or",
    }
}

fn push_operator(out: &mut String, op: Op) -> Result<(), AllocError>
    ensures { OnOk result (string_bytes out.new ≡ string_bytes out.old ++ laid (operator op ∷ [])) }
{
    push_word(out, Gap::Space, operator_text(op))
}

fn function_text(func: Func) -> &'static str
    ensures { result.now ≡ function_name func }
{
    match func {
        Func::Min => "min",
        Func::Max => "max",
        Func::Abs => "abs",
        Func::Clamp => "clamp",
    }
}

// A literal, `true`, `false`, a name or a call.
fn is_plain(expr: &Expr) -> bool
    ensures { result ≡ is_plain (tree_view expr.now) }
{
    match expr {
        Expr::Number(_) => true,
        Expr::Truth { .. } => true,
        Expr::Name(_) => true,
        Expr::Member(_) => true,
        Expr::Call { .. } => true,
        Expr::Rescale { .. } => true,
        Expr::Binary { .. } => false,
        Expr::Rest { .. } => false,
        Expr::Neg { .. } => false,
        Expr::Not { .. } => false,
        Expr::If { .. } => false,
    }
}

// In parentheses.
#[cycle(expression)]
fn push_grouped(out: &mut String, gap: Gap, expr: &Expr) -> Result<(), AllocError>
    ensures { OnOk result (string_bytes out.new
        ≡ string_bytes out.old
        ++ laid (grouped_words gap (expression_words (tree_view expr.now)))) }
{
    push_word(out, gap, "(")?;
    push_expression(out, Gap::Touching, expr)?;
    push_word(out, Gap::Touching, ")")
}

// In parentheses unless it is plain.
#[cycle(expression)]
#[inline(always)]
fn push_operand(out: &mut String, gap: Gap, expr: &Expr) -> Result<(), AllocError>
    ensures { OnOk result (string_bytes out.new
        ≡ string_bytes out.old ++ laid (operand_words (tree_view expr.now) gap
        (expression_words (tree_view expr.now)))) }
{
    if is_plain(expr) {
        push_expression(out, gap, expr)
    } else {
        push_grouped(out, gap, expr)
    }
}

// The parts of a call, with a comma before each but the first.
#[cycle(expression)]
fn push_parts(out: &mut String, parts: &[Expr]) -> Result<(), AllocError>
    ensures { OnOk result (string_bytes out.new
        ≡ string_bytes out.old ++ laid (listed (λ gap e. expression_words (tree_view e) gap)
        Touching parts.now)) }
{
    for (place, part) in parts.iter().enumerate() {
        let gap = push_comma(out, place, Gap::Touching)?;
        push_expression(out, gap, part)?;
    }
    Ok(())
}

// A function, and its parts in parentheses.
#[cycle(expression)]
fn push_call(out: &mut String, gap: Gap, func: Func, parts: &[Expr]) -> Result<(), AllocError>
    ensures { OnOk result (string_bytes out.new
        ≡ string_bytes out.old ++ (blanks gap
        ++ (function_name func ++ (codes "("
        ++ (laid (listed (λ gap e. expression_words (tree_view e) gap) Touching parts.now)
        ++ codes ")"))))) }
{
    push_word(out, gap, function_text(func))?;
    push_word(out, Gap::Touching, "(")?;
    push_parts(out, parts)?;
    push_word(out, Gap::Touching, ")")
}

// `rescale`, and in parentheses what is rescaled, and to how many decimals.
#[cycle(expression)]
fn push_rescaled(out: &mut String, gap: Gap, part: &Expr, to: Lit) -> Result<(), AllocError>
    ensures { OnOk result (string_bytes out.new
        ≡ string_bytes out.old ++ laid (keyword gap (codes "rescale") ∷ sign Touching (codes "(") ∷
        expression_words (tree_view part.now) Touching
        ++ sign Touching (codes ",") ∷ literal_words Space to ++ sign Touching (codes ")") ∷ [])) }
{
    push_word(out, gap, "rescale")?;
    push_word(out, Gap::Touching, "(")?;
    push_expression(out, Gap::Touching, part)?;
    push_word(out, Gap::Touching, ",")?;
    push_literal(out, Gap::Space, to)?;
    push_word(out, Gap::Touching, ")")
}

// A word, and an operand behind it.
#[cycle(expression)]
fn push_led(out: &mut String, gap: Gap, word: &str, expr: &Expr) -> Result<(), AllocError>
    ensures { OnOk result (string_bytes out.new
        ≡ string_bytes out.old ++ laid (keyword gap word.now ∷ operand_words (tree_view expr.now)
        Space (expression_words (tree_view expr.now)))) }
{
    push_word(out, gap, word)?;
    push_operand(out, Gap::Space, expr)
}

#[cycle(expression)]
pub fn push_expression(out: &mut String, gap: Gap, expr: &Expr) -> Result<(), AllocError>
    ensures { OnOk result (string_bytes out.new
        ≡ string_bytes out.old ++ laid (expression_words (tree_view expr.now) gap)) }
{
    match expr {
        Expr::Number(literal) => push_literal(out, gap, *literal),
        Expr::Truth { value, .. } => push_truth(out, gap, *value),
        Expr::Name(name) => push_ident(out, gap, name),
        Expr::Member(member) => push_member(out, gap, member.content()),
        Expr::Binary { op, operands, .. } => {
            push_operand(out, gap, &operands.left)?;
            push_operator(out, *op)?;
            push_operand(out, Gap::Space, &operands.right)
        }
        Expr::Rest { left, by, .. } => {
            push_operand(out, gap, left)?;
            push_word(out, Gap::Space, "%")?;
            push_literal(out, Gap::Space, *by.content())
        }
        Expr::Neg { part, .. } => {
            push_word(out, gap, "-")?;
            push_grouped(out, Gap::Touching, part)
        }
        Expr::Not { part, .. } => {
            push_word(out, gap, "not")?;
            push_grouped(out, Gap::Space, part)
        }
        Expr::Call { func, parts, .. } => push_call(out, gap, *func, parts),
        Expr::Rescale { part, to, .. } => push_rescaled(out, gap, part, *to.content()),
        Expr::If { choice, .. } => {
            push_led(out, gap, "if", &choice.cond)?;
            push_led(out, Gap::Space, "then", &choice.yes)?;
            push_led(out, Gap::Space, "else", &choice.no)
        }
    }
}
