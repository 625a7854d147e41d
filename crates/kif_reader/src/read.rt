//! Reads whole texts. Tokens are taken one by one, with the lists that are open on a stack; a text whose lists are all closed is
//! then tested for faults of shape.
ghost use Rattle.std.specs.Prelude.{◌≡◌, ◌≤◌, ◌∷◌, [], ◌++◌, ◌+◌, ◌<◌, ◌^◌, ◌⊎◌, ◌≢◌, true, ℕ, List, All, Some, IfOk, IfErr, IsErrAnd, OnOk, length, slice_get, MatchResult, vec_len};
ghost use Rattle.kif_tree.specs.Shape.{is_shaped};
ghost use Rattle.kif_reader.specs.Bytes.{IsPlace};
ghost use Rattle.kif_reader.specs.Cut.{IsToken};
ghost use Rattle.kif_reader.specs.Reading.{unread_of};
ghost use Rattle.kif_reader.specs.Steps.{Adds, Follows, Refuses};
ghost use Rattle.kif_reader.specs.Spelling.{Lexed, Reads, SpellsAll, Spells, FirstFault};

use crate::bytes::Spot;
use crate::kinds::{LexError, Open, ReadError, Token, TokenKind};
use crate::leaves::leaf;
use crate::tokens::Tokens;
use kif_tree::{Form, Located, Place, first_fault_in};
use sigma_base::{Listed, NoMemory};
use std::alloc::{AllocError, Global};

/// Puts a form behind the parts of the innermost open list, or behind the forms.
fn add(
    forms: &mut Vec<Located>,
    lists: &mut Vec<Open>,
    constituent: u32,
    form: Form,
    line: u32,
    column: u32,
) -> Result<(), NoMemory>
    requires { vec_len forms.old + 1 < 2 ^ 32 }
    ensures { OnOk result (Adds constituent form line column forms.old.items forms.new.items lists.old.items lists.new.items) }
{
    match lists.pop() {
        None => {
            let place = Place {
                constituent,
                form: forms.len() as u32 + 1,
                line,
                column,
            };
            forms
                .push(Located { form, place })
                .map_err(AllocError::from)?;
        }
        Some(list) => {
            let Open {
                line,
                column,
                mut parts,
            } = list;
            parts.push(form)?;
            lists
                .push(Open {
                    line,
                    column,
                    parts,
                })
                .map_err(AllocError::from)?;
        }
    }
    Ok(())
}

fn open_list(alloc: Global, lists: &mut Vec<Open>, line: u32, column: u32) -> Result<(), NoMemory>
    ensures { OnOk result (lists.new.items ≡ lists.old.items ++ record { line = line; column = column; parts = [] } ∷ []) }
{
    lists
        .push(Open {
            line,
            column,
            parts: Listed::new(alloc),
        })
        .map_err(AllocError::from)?;
    Ok(())
}

/// What a token does to the forms and the open lists.
fn take_token(
    alloc: Global,
    forms: &mut Vec<Located>,
    lists: &mut Vec<Open>,
    constituent: u32,
    token: Token,
) -> Result<(), ReadError>
    requires token { (follow : List ℕ) × IsToken token.kind token.text.now follow }
    requires room { vec_len forms.old + 1 < 2 ^ 32 }
    requires few { vec_len lists.old ≤ 200 }
    ensures { MatchResult result
        (λ _. Follows constituent token.entry.kind token.entry.text.now token.entry.line token.entry.column forms.old.items forms.new.items lists.old.items lists.new.items)
        (λ error. Refuses token.entry.kind (length lists.old.items) token.entry.line token.entry.column error) }
{
    let line = token.line;
    let column = token.column;
    match token.kind {
        TokenKind::Left => {
            if lists.len() == 200 {
                return Err(ReadError::TooDeep(Spot { line, column }));
            }
            open_list(alloc, lists, line, column)?;
        }
        TokenKind::Right => {
            let Some(list) = lists.pop() else {
                return Err(ReadError::StrayClose(Spot { line, column }));
            };
            let Open {
                line,
                column,
                parts,
            } = list;
            add(forms, lists, constituent, Form::List(parts), line, column)?;
        }
        _ => {
            let form = leaf(alloc, token)?;
            add(forms, lists, constituent, form, line, column)?;
        }
    }
    Ok(())
}

fn unread(error: LexError) -> ReadError
    ensures { result ≡ unread_of error }
{
    match error {
        LexError::BadByte(spot) => ReadError::BadByte(spot),
        LexError::OpenString(spot) => ReadError::OpenString(spot),
        LexError::BadEscape(spot) => ReadError::BadEscape(spot),
        LexError::BadWord(spot) => ReadError::BadWord(spot),
    }
}

/// The forms of a text with their places, whatever their shapes, or the first fault that is met while tokens are taken.
fn read_trees(alloc: Global, text: &[u8], constituent: u32) -> Result<Vec<Located>, ReadError>
    requires { length text.now < 2 ^ 31 }
    ensures { MatchResult result
        (λ forms. (tokens : List Lexed) × SpellsAll constituent text.now forms.items tokens)
        (λ error. FirstFault constituent text.now error) }
{
    let mut tokens = Tokens::new(text);
    let mut forms = Vec::new(alloc);
    let mut lists: Vec<Open> = Vec::new(alloc);
    while let Some(step) = tokens.next() {
        match step {
            Ok(token) => take_token(alloc, &mut forms, &mut lists, constituent, token)?,
            Err(error) => return Err(unread(error)),
        }
    }
    if let Some(list) = lists.first() {
        let spot = Spot {
            line: list.line,
            column: list.column,
        };
        return Err(ReadError::OpenList(spot));
    }
    Ok(forms)
}

/// The place of the token of this number, from 0. The tokens are taken anew, so that a text without faults keeps no places.
fn token_spot(text: &[u8], number: usize) -> Spot
    requires short { length text.now < 2 ^ 31 }
    requires within { (tokens : List Lexed) × (before : List ℕ) × Reads text.now tokens before [] × (number < length tokens) }
    ensures { (tokens : List Lexed) (before : List ℕ) → Reads text.now tokens before [] → (token : Lexed) × (slice_get tokens number ≡ Some token) × IsPlace result.line result.column token.before }
{
    let mut tokens = Tokens::new(text);
    let mut left = number;
    while let Some(step) = tokens.next() {
        match step {
            Ok(token) => {
                if left == 0 {
                    return Spot {
                        line: token.line,
                        column: token.column,
                    };
                }
                left -= 1;
            }
            Err(_) => unreachable!(),
        }
    }
    unreachable!()
}

/// The forms of a text, each a list at the top, with their places: the given constituent, numbers from 1, and the line and column
/// of the first byte. A text with faults gives the first of them: those that are met while tokens are taken go before lists that are
/// left open, and these before faults of shape.
pub fn read_forms(alloc: Global, text: &[u8], constituent: u32) -> Result<Vec<Located>, ReadError>
    requires { length text.now < 2 ^ 31 }
    ensures forms { IfOk result (λ forms. Spells constituent text.now forms.items) }
    ensures shaped { IfOk result (λ forms. All (λ located. is_shaped located.form ≡ true) forms.items) }
    ensures fault { IfErr result (λ error. FirstFault constituent text.now error) }
    ensures spelled { (forms : List Located) → Spells constituent text.now forms → MatchResult result (λ read. read.items ≡ forms) (λ error. error ≡ ReadError.NoMemory) }
    ensures unspelled { (error : ReadError) → error ≢ ReadError.NoMemory → FirstFault constituent text.now error → IsErrAnd result (λ found. (found ≡ error) ⊎ (found ≡ ReadError.NoMemory)) }
{
    let forms = read_trees(alloc, text, constituent)?;
    match first_fault_in(&forms) {
        None => Ok(forms),
        Some(number) => Err(ReadError::LogicShape(token_spot(text, number))),
    }
}
