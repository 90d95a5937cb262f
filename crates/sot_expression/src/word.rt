//! Keywords and signs, compared.
ghost use Rattle.std.specs.Prelude.{◌≡◌};
ghost use Rattle.std.specs.Str.{bytes_eq};
ghost use Rattle.sot_expression.specs.Lexemes.{is_keyword, is_sign};
ghost use Rattle.sot_text.specs.Reading.{lexeme};

use sot_text::{Kind, Token};

/// Whether these are the same bytes. Keywords are short: their bytes are compared one by one.
pub fn is_word(text: &[u8], word: &[u8]) -> bool
    ensures { result ≡ bytes_eq text.now word.now }
{
    if text.len() != word.len() {
        return false;
    }
    for (i, x) in text.iter().enumerate() {
        if *x != word[i] {
            return false;
        }
    }
    true
}

/// Whether a token is this sign.
#[inline(always)]
pub fn token_is_sign(token: &Token<'_>, text: &[u8]) -> bool
    ensures { result ≡ is_sign text.now (lexeme token.now) }
{
    matches!(token.kind, Kind::Sign) && token.text == text
}

/// Whether a token is this keyword.
#[inline(always)]
pub fn token_is_keyword(token: &Token<'_>, text: &[u8]) -> bool
    ensures { result ≡ is_keyword text.now (lexeme token.now) }
{
    matches!(token.kind, Kind::Keyword) && is_word(token.text, text)
}
