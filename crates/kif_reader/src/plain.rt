//! A plain second reader, for tests. It looks for what the definitions ask of a whole text: a cut into pieces, the count of open
//! lists before each token, and the shape of each list. It makes no forms, and tells its answer as the tests show one.
use crate::TokenKind;
use kif_tree::Text;
use sigma_base::NoMemory;
use std::alloc::{AllocError, Global};

/// A token of a cut, and how many bytes stand before it.
#[derive(Clone, Copy, Debug)]
struct Lexeme<'a> {
    kind: TokenKind,
    text: &'a [u8],
    before: usize,
}

/// The code of a fault, and how many bytes stand before it.
#[derive(Clone, Copy, Debug)]
struct Found {
    code: u8,
    before: usize,
}

// ---- pieces

fn is_blank(byte: u8) -> bool {
    matches!(byte, 9 | 10 | 12 | 13 | 32)
}

fn is_chunk_byte(byte: u8) -> bool {
    byte.is_ascii_graphic() && !matches!(byte, b'(' | b')' | b';' | b'"')
}

fn is_name_byte(byte: u8) -> bool {
    byte.is_ascii_alphanumeric() || matches!(byte, b'-' | b'_' | b'.')
}

fn is_name(text: &[u8]) -> bool {
    !text.is_empty() && text.iter().all(|byte| is_name_byte(*byte))
}

fn is_digits(text: &[u8]) -> bool {
    !text.is_empty() && text.iter().all(|byte| byte.is_ascii_digit())
}

/// Digits, or two runs of digits with a point between them.
fn is_decimal(text: &[u8]) -> bool {
    for len in 0..text.len() {
        let (front, rest) = text.split_at(len);
        if let [b'.', fraction @ ..] = rest {
            return is_digits(front) && is_digits(fraction);
        }
    }
    is_digits(text)
}

fn is_signed(text: &[u8]) -> bool {
    match text {
        [b'+' | b'-', digits @ ..] => is_digits(digits),
        _ => is_digits(text),
    }
}

/// A decimal, or one before an exponent.
fn is_unsigned(text: &[u8]) -> bool {
    for len in 0..text.len() {
        let (front, rest) = text.split_at(len);
        if let [b'e' | b'E', exponent @ ..] = rest {
            return is_decimal(front) && is_signed(exponent);
        }
    }
    is_decimal(text)
}

fn kind_of_chunk(text: &[u8]) -> Option<TokenKind> {
    let is_of_kind = match text {
        b"=>" | b"<=>" => return Some(TokenKind::Word),
        [b'?', name @ ..] if is_name(name) => return Some(TokenKind::Variable),
        [b'@', name @ ..] if is_name(name) => return Some(TokenKind::Row),
        [b'-', rest @ ..] => is_unsigned(rest),
        [b'0'..=b'9', ..] => is_unsigned(text),
        [byte, ..] if byte.is_ascii_alphabetic() && is_name(text) => return Some(TokenKind::Word),
        _ => false,
    };
    if is_of_kind {
        Some(TokenKind::Numeral)
    } else {
        None
    }
}

fn is_control(byte: u8) -> bool {
    byte == 0x7f || byte < 0x20 && !is_blank(byte)
}

/// The bytes may stand between the quotes of a string.
fn is_inside(text: &[u8]) -> bool {
    let mut is_escaped = false;
    for byte in text {
        let is_marked = *byte == b'"' || *byte == b'\\';
        if is_control(*byte) || is_escaped && !is_marked || !is_escaped && *byte == b'"' {
            return false;
        }
        is_escaped = !is_escaped && *byte == b'\\';
    }
    !is_escaped
}

#[derive(Clone, Copy, Debug)]
enum Piece {
    Idle,
    Token(TokenKind),
}

/// What the piece is, where it may stand before what follows.
fn piece_of(text: &[u8], follow: &[u8]) -> Option<Piece> {
    match text {
        [b'('] => Some(Piece::Token(TokenKind::Left)),
        [b')'] => Some(Piece::Token(TokenKind::Right)),
        [byte] if is_blank(*byte) => Some(Piece::Idle),
        [b';', body @ ..] => {
            let is_whole = matches!(follow, [] | [b'\n', ..]);
            if is_whole && body.iter().all(|byte| *byte != b'\n') {
                Some(Piece::Idle)
            } else {
                None
            }
        }
        [b'"', inside @ .., b'"'] => {
            if is_inside(inside) {
                Some(Piece::Token(TokenKind::Quoted))
            } else {
                None
            }
        }
        _ => chunk_of(text, follow),
    }
}

fn chunk_of(text: &[u8], follow: &[u8]) -> Option<Piece> {
    let is_whole = match follow {
        [] => true,
        [byte, ..] => !is_chunk_byte(*byte),
    };
    if is_whole && text.iter().all(|byte| is_chunk_byte(*byte)) {
        Some(Piece::Token(kind_of_chunk(text)?))
    } else {
        None
    }
}

/// The piece at the front, its bytes, and what follows them.
fn first_piece(text: &[u8]) -> Option<(Piece, &[u8], &[u8])> {
    for len in 1..=text.len() {
        let (front, rest) = text.split_at(len);
        if let Some(piece) = piece_of(front, rest) {
            return Some((piece, front, rest));
        }
    }
    None
}

/// What ends the longest front that may stand in a string, and its length.
fn string_fault(text: &[u8]) -> Found {
    let mut found = Found { code: 2, before: 0 };
    for len in 0..=text.len() {
        let (front, rest) = text.split_at(len);
        if is_inside(front) {
            let code = match rest {
                [] | [b'\\'] => 2,
                [b'\\', ..] => 5,
                _ => 1,
            };
            found = Found { code, before: len };
        }
    }
    found
}

/// The fault where no piece stands at the front.
fn fault_at(text: &[u8], before: usize) -> Found {
    match text {
        [b'"', inside @ ..] => {
            let found = string_fault(inside);
            let skipped = if found.code == 2 {
                0
            } else {
                found.before.saturating_add(1)
            };
            Found {
                code: found.code,
                before: before.saturating_add(skipped),
            }
        }
        [byte, ..] if is_chunk_byte(*byte) => Found { code: 6, before },
        _ => Found { code: 1, before },
    }
}

/// The tokens of the longest front that has a cut, and the fault behind it.
#[derive(Debug, Drop)]
struct Cut<'a> {
    tokens: Vec<Lexeme<'a>>,
    fault: Option<Found>,
}

fn cut_of<'a>(alloc: Global, text: &'a [u8]) -> Result<Cut<'a>, NoMemory> {
    let mut tokens = Vec::new(alloc);
    let mut rest = match text {
        [0xef, 0xbb, 0xbf, rest @ ..] => rest,
        _ => text,
    };
    for _ in text {
        let before = text.len().saturating_sub(rest.len());
        let Some((piece, front, behind)) = first_piece(rest) else {
            break;
        };
        if let Piece::Token(kind) = piece {
            tokens
                .push(Lexeme {
                    kind,
                    text: front,
                    before,
                })
                .map_err(AllocError::from)?;
        }
        rest = behind;
    }
    let fault = if rest.is_empty() {
        None
    } else {
        Some(fault_at(rest, text.len().saturating_sub(rest.len())))
    };
    Ok(Cut { tokens, fault })
}

// ---- levels

/// The first parenthesis that may not stand where it does.
fn nest_fault(tokens: &[Lexeme]) -> Option<Found> {
    let mut open: u32 = 0;
    for token in tokens {
        let before = token.before;
        match token.kind {
            TokenKind::Left if open == 200 => return Some(Found { code: 7, before }),
            TokenKind::Right if open == 0 => return Some(Found { code: 4, before }),
            _ => open = level_behind(open, token.kind),
        }
    }
    None
}

fn level_behind(open: u32, kind: TokenKind) -> u32 {
    match kind {
        TokenKind::Left => open.saturating_add(1),
        TokenKind::Right => open.saturating_sub(1),
        _ => open,
    }
}

/// The outermost list that no token closes.
fn open_list(tokens: &[Lexeme]) -> Option<Found> {
    let mut open: u32 = 0;
    let mut outermost = None;
    for token in tokens {
        if open == 0 {
            outermost = Some(Found {
                code: 3,
                before: token.before,
            });
        }
        open = level_behind(open, token.kind);
    }
    if open == 0 { None } else { outermost }
}

// ---- shapes

/// How many parts a list has, from its parenthesis on.
fn count_parts(list: &[Lexeme]) -> u32 {
    let mut open: u32 = 0;
    let mut count: u32 = 0;
    for token in list {
        if open == 1 && token.kind != TokenKind::Right {
            count = count.saturating_add(1);
        }
        open = level_behind(open, token.kind);
        if open == 0 {
            return count;
        }
    }
    count
}

/// A list of variables and row variables begins here.
fn lists_names(tokens: &[Lexeme]) -> bool {
    let [left, names @ ..] = tokens else {
        return false;
    };
    for token in names {
        match token.kind {
            TokenKind::Variable | TokenKind::Row => {}
            TokenKind::Right => return left.kind == TokenKind::Left,
            _ => return false,
        }
    }
    false
}

/// The list that begins here has a fault of shape.
fn is_misshapen(list: &[Lexeme]) -> bool {
    let [_, head, arguments @ ..] = list else {
        return true;
    };
    let count = count_parts(list);
    match head.kind {
        TokenKind::Variable => false,
        TokenKind::Word => match head.text {
            b"not" => count != 2,
            b"and" | b"or" => count == 1,
            b"=>" | b"<=>" => count != 3,
            b"forall" | b"exists" => count != 3 || !lists_names(arguments),
            _ => false,
        },
        _ => true,
    }
}

/// What comes behind these tokens is the first argument of a quantifier.
fn binds_next(tokens: &[Lexeme]) -> bool {
    match tokens {
        [.., left, head] => {
            left.kind == TokenKind::Left && matches!(head.text, b"forall" | b"exists")
        }
        _ => false,
    }
}

fn shape_fault(tokens: &[Lexeme]) -> Option<Found> {
    let mut open: u32 = 0;
    for at in 0..tokens.len() {
        let (front, rest) = tokens.split_at(at);
        let [token, ..] = rest else {
            return None;
        };
        let is_faulty = match token.kind {
            TokenKind::Right => false,
            TokenKind::Left if binds_next(front) => count_parts(rest) == 0,
            TokenKind::Left => is_misshapen(rest),
            _ => open == 0,
        };
        if is_faulty {
            return Some(Found {
                code: 8,
                before: token.before,
            });
        }
        open = level_behind(open, token.kind);
    }
    None
}

// ---- the answer

fn first_fault(cut: &Cut) -> Option<Found> {
    let tokens = cut.tokens.as_slice();
    nest_fault(tokens)
        .or(cut.fault)
        .or(open_list(tokens))
        .or(shape_fault(tokens))
}

fn append_spot(out: &mut Text, before: &[u8]) -> Result<(), NoMemory> {
    let lines = before.iter().filter(|byte| **byte == b'\n').count();
    let columns = before
        .iter()
        .rev()
        .take_while(|byte| **byte != b'\n')
        .count();
    out.append_decimal((lines as u64).saturating_add(1))?;
    out.push(b':')?;
    out.append_decimal((columns as u64).saturating_add(1))
}

fn append_at(out: &mut Text, text: &[u8], at: usize) -> Result<(), NoMemory> {
    append_spot(out, text.get(..at).unwrap_or(text))
}

/// The tokens of forms, each form behind its number and place and before a bar.
fn append_forms(out: &mut Text, text: &[u8], tokens: &[Lexeme]) -> Result<(), NoMemory> {
    let mut open: u32 = 0;
    let mut number: u64 = 0;
    let mut is_first = true;
    for token in tokens {
        if open == 0 {
            number = number.saturating_add(1);
            out.append(b"7.")?;
            out.append_decimal(number)?;
            out.push(b' ')?;
            append_at(out, text, token.before)?;
            out.push(b' ')?;
        } else if !is_first && token.kind != TokenKind::Right {
            out.push(b' ')?;
        }
        out.append(token.text)?;
        is_first = token.kind == TokenKind::Left;
        open = level_behind(open, token.kind);
        if open == 0 {
            out.push(b'|')?;
        }
    }
    Ok(())
}

pub(crate) fn answer_shown(alloc: Global, text: &[u8]) -> Result<Text, NoMemory> {
    let mut out = Text::new(alloc);
    let cut = cut_of(alloc, text)?;
    match first_fault(&cut) {
        None => append_forms(&mut out, text, cut.tokens.as_slice())?,
        Some(found) => {
            out.append(b"fault ")?;
            out.append_decimal(u64::from(found.code))?;
            out.push(b' ')?;
            append_at(&mut out, text, found.before)?;
        }
    }
    Ok(out)
}
