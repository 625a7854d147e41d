//! The form that a single token spells.
ghost use Rattle.std.specs.Prelude.{◌≡◌, ◌≢◌, ◌∷◌, [], ◌++◌, ◌≤◌, ℕ, List, IfOk, length, drop, take};
ghost use Rattle.kif_reader.specs.Cut.{IsInside, IsToken, escaped};
ghost use Rattle.kif_reader.specs.Spelling.{spelling};

use crate::kinds::{Token, TokenKind};
use kif_tree::{Form, Text};
use sigma_base::NoMemory;
use std::alloc::Global;

/// The text that a string holds, whose bytes between the quotes are these.
fn unescaped(alloc: Global, inside: &[u8]) -> Result<Text, NoMemory>
    requires { IsInside inside.now }
    ensures { IfOk result (λ text. inside.now ≡ escaped text) }
{
    let mut text = Text::new(alloc);
    let mut at = 0;
    while at < inside.len() {
        let byte = inside[at];
        if byte == b'\\' {
            text.push(inside[at + 1])?;
            at += 2;
        } else {
            text.push(byte)?;
            at += 1;
        }
    }
    Ok(text)
}

/// The form that a token other than a parenthesis spells.
#[tactic(auto, using(crate::proofs::SpellingLaws::leaf_laws))]
pub fn leaf(alloc: Global, token: Token) -> Result<Form, NoMemory>
    requires token { (follow : List ℕ) × IsToken token.kind token.text.now follow }
    requires no_left { token.kind ≢ TokenKind.Left }
    requires no_right { token.kind ≢ TokenKind.Right }
    ensures { IfOk result (λ form. spelling form ≡ (token.entry.kind, token.entry.text.now) ∷ []) }
{
    match token.kind {
        TokenKind::Word => Ok(Form::Word(Text::of(alloc, token.text)?)),
        TokenKind::Numeral => Ok(Form::Numeral(Text::of(alloc, token.text)?)),
        TokenKind::Variable => {
            let (_, name) = token.text.split_at(1);
            Ok(Form::Variable(Text::of(alloc, name)?))
        }
        TokenKind::Row => {
            let (_, name) = token.text.split_at(1);
            Ok(Form::Row(Text::of(alloc, name)?))
        }
        TokenKind::Quoted => {
            let (_, rest) = token.text.split_at(1);
            let (inside, _) = rest.split_at(rest.len() - 1);
            Ok(Form::Quoted(unescaped(alloc, inside)?))
        }
        TokenKind::Left => unreachable!(),
        TokenKind::Right => unreachable!(),
    }
}
