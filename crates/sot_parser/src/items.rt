//! Lists of items, and clauses of them.
ghost use Rattle.std.specs.Prelude.{◌≡◌, ◌<◌, List, length, IfOk, codes};
ghost use Rattle.sot_text.specs.Reading.{Lexeme};
ghost use Rattle.sot_expression.specs.Lexemes.{begins, is_sign, is_keyword};
ghost use Rattle.sot_expression.specs.Readers.{Read, name_at};
ghost use Rattle.sot_parser.specs.ListReaders.{further_at, separated_at, clause_at, optional_at};
ghost use Rattle.sot_expression.specs.Returned.{Gives};

use sot_expression::{Fail, Tokens, expect_keyword, expect_sign, is_keyword, is_sign, name};
use sot_syntax_tree::Ident;
use std::alloc::Global;

/// What stands in lists.
pub trait Item: Sized + Drop {
    /// What tokens spell as an item.
    ghost reads: { List Lexeme → Read Self };

    fn read(alloc: Global, tokens: &mut Tokens<'_>) -> Result<Self, Fail>
        ensures read { Gives (λ item. item) result tokens.old tokens.new (reads tokens.old.tokens) }
        ensures shorter { IfOk result (λ _. length tokens.new.tokens < length tokens.old.tokens) };
}

impl Item for Ident {
    ghost reads = { name_at };

    #[tactic(auto, using(crate::proofs::Shorter::name_short))]
    fn read(alloc: Global, tokens: &mut Tokens<'_>) -> Result<Ident, Fail> {
        name(alloc, tokens)
    }
}

#[tactic(auto, unfolding(crate::specs::ListReaders::further_at))]
fn further<T: Item>(alloc: Global, tokens: &mut Tokens<'_>, sign: &[u8]) -> Result<T, Fail>
    ensures read { Gives (λ item. item) result tokens.old tokens.new
        (further_at sign.now T.reads tokens.old.tokens) }
    ensures shorter { IfOk result (λ _. length tokens.new.tokens < length tokens.old.tokens) }
{
    expect_sign(tokens, sign)?;
    T::read(alloc, tokens)
}

/// Items with a sign between each two.
#[tactic(auto, using(crate::proofs::Loops::again, crate::proofs::Loops::breaks_so))]
pub fn separated<T: Item>(
    alloc: Global,
    tokens: &mut Tokens<'_>,
    sign: &[u8],
) -> Result<Vec<T>, Fail>
    ensures { Gives (λ items. items.items) result tokens.old tokens.new
        (separated_at sign.now T.reads tokens.old.tokens) }
{
    let first = T::read(alloc, tokens)?;
    let mut items = Vec::new(alloc);
    items.push(first)?;
    while is_sign(tokens, sign) {
        let item = further(alloc, tokens, sign)?;
        items.push(item)?;
    }
    Ok(items)
}

/// A clause of items behind a keyword.
#[tactic(auto, unfolding(crate::specs::ListReaders::clause_at))]
pub fn clause<T: Item>(alloc: Global, tokens: &mut Tokens<'_>, word: &[u8]) -> Result<Vec<T>, Fail>
    ensures { Gives (λ items. items.items) result tokens.old tokens.new
        (clause_at word.now T.reads tokens.old.tokens) }
{
    expect_keyword(tokens, word)?;
    let items = separated(alloc, tokens, b",")?;
    expect_sign(tokens, b";")?;
    Ok(items)
}

/// A clause of items behind a keyword, or no item where the clause is left out.
#[tactic(auto, unfolding(crate::specs::ListReaders::optional_at))]
pub fn optional<T: Item>(
    alloc: Global,
    tokens: &mut Tokens<'_>,
    word: &[u8],
) -> Result<Vec<T>, Fail>
    ensures { Gives (λ items. items.items) result tokens.old tokens.new
        (optional_at word.now T.reads tokens.old.tokens) }
{
    if is_keyword(tokens, word) {
        clause(alloc, tokens, word)
    } else {
        Ok(Vec::new(alloc))
    }
}
