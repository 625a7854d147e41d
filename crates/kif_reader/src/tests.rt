//! Texts with the tokens, forms and faults that they have, worked by hand, and prefixes of texts against a plain second reader.
use crate::plain::answer_shown;
use crate::{LexError, ReadError, Spot, Token, TokenKind, Tokens, read_forms};
use kif_tree::{Located, Text, print_form};
use sigma_base::NoMemory;
use std::alloc::Global;
use std::test::Fail;

// ---- what is shown of an answer

fn append_spot(out: &mut Text, line: u32, column: u32) -> Result<(), NoMemory> {
    out.append_decimal(u64::from(line))?;
    out.push(b':')?;
    out.append_decimal(u64::from(column))
}

fn append_fault(out: &mut Text, code: u8, spot: Spot) -> Result<(), NoMemory> {
    out.append(b"fault ")?;
    out.append_decimal(u64::from(code))?;
    out.push(b' ')?;
    append_spot(out, spot.line, spot.column)
}

fn kind_name(kind: TokenKind) -> &'static [u8] {
    match kind {
        TokenKind::Left => b"left",
        TokenKind::Right => b"right",
        TokenKind::Word => b"word",
        TokenKind::Variable => b"variable",
        TokenKind::Row => b"row",
        TokenKind::Numeral => b"numeral",
        TokenKind::Quoted => b"string",
    }
}

fn append_token(out: &mut Text, token: Token) -> Result<(), NoMemory> {
    out.append(kind_name(token.kind))?;
    out.push(b' ')?;
    append_spot(out, token.line, token.column)?;
    out.push(b' ')?;
    out.append(token.text)
}

fn append_lex_error(out: &mut Text, error: LexError) -> Result<(), NoMemory> {
    match error {
        LexError::BadByte(spot) => append_fault(out, 1, spot),
        LexError::OpenString(spot) => append_fault(out, 2, spot),
        LexError::BadEscape(spot) => append_fault(out, 5, spot),
        LexError::BadWord(spot) => append_fault(out, 6, spot),
    }
}

/// Each token with its kind and place, or the fault, and a bar after each; `none` where no more comes.
fn tokens_shown(alloc: Global, text: &[u8]) -> Result<Text, NoMemory> {
    let mut out = Text::new(alloc);
    if text.len() >= 0x8000_0000 {
        return Ok(out);
    }
    let mut tokens = Tokens::new(text);
    for _ in text {
        match tokens.next() {
            None => break,
            Some(Ok(token)) => append_token(&mut out, token)?,
            Some(Err(error)) => append_lex_error(&mut out, error)?,
        }
        out.push(b'|')?;
    }
    if tokens.next().is_none() {
        out.append(b"none")?;
    }
    Ok(out)
}

fn append_form(alloc: Global, out: &mut Text, located: &Located) -> Result<(), NoMemory> {
    out.append_decimal(u64::from(located.place.constituent))?;
    out.push(b'.')?;
    out.append_decimal(u64::from(located.place.form))?;
    out.push(b' ')?;
    append_spot(out, located.place.line, located.place.column)?;
    out.push(b' ')?;
    out.append(print_form(alloc, &located.form)?.bytes())?;
    out.push(b'|')
}

fn append_error(out: &mut Text, error: ReadError) -> Result<(), NoMemory> {
    match error {
        ReadError::BadByte(spot) => append_fault(out, 1, spot),
        ReadError::OpenString(spot) => append_fault(out, 2, spot),
        ReadError::OpenList(spot) => append_fault(out, 3, spot),
        ReadError::StrayClose(spot) => append_fault(out, 4, spot),
        ReadError::BadEscape(spot) => append_fault(out, 5, spot),
        ReadError::BadWord(spot) => append_fault(out, 6, spot),
        ReadError::TooDeep(spot) => append_fault(out, 7, spot),
        ReadError::LogicShape(spot) => append_fault(out, 8, spot),
        ReadError::NoMemory => Err(NoMemory),
    }
}

/// Each form with its constituent, number and place, and a bar after each; or the fault.
fn forms_shown(alloc: Global, text: &[u8]) -> Result<Text, NoMemory> {
    let mut out = Text::new(alloc);
    if text.len() >= 0x8000_0000 {
        return Ok(out);
    }
    match read_forms(alloc, text, 7) {
        Ok(forms) => {
            for located in &forms {
                append_form(alloc, &mut out, located)?;
            }
        }
        Err(error) => append_error(&mut out, error)?,
    }
    Ok(out)
}

// ---- tokens

#[test]
fn tokens_have_their_places(rt: HostRuntime) -> Result<(), Fail> {
    let table: [(&[u8], &[u8]); 12] = [
        (
            b"(p ?X) ; c",
            b"left 1:1 (|word 1:2 p|variable 1:4 ?X|right 1:6 )|none",
        ),
        (b"", b"none"),
        (b"; \x00\x7f\xff\"(\\ c", b"none"),
        (b"a \x01 b", b"word 1:1 a|fault 1 1:3|none"),
        // touching tokens
        (
            b"a\"b\"c;d\n(\"\")",
            b"word 1:1 a|string 1:2 \"b\"|word 1:5 c|left 2:1 (|string 2:2 \"\"|right 2:4 )|none",
        ),
        // a mark stands at the start alone
        (b"\xef\xbb\xbfa", b"word 1:4 a|none"),
        (b"\xef\xbb\xbf", b"none"),
        (b" \xef\xbb\xbfa", b"fault 1 1:2|none"),
        (b"\xef\xbba", b"fault 1 1:1|none"),
        // a line ends at a line feed alone
        (
            b"a\r\x0cb\tc\r\nd\n\n\re",
            b"word 1:1 a|word 1:4 b|word 1:6 c|word 2:1 d|word 4:2 e|none",
        ),
        (b";a\rb\nc", b"word 2:1 c|none"),
        // a string runs over lines
        (
            b"\"\x80\xff\t\r\n\x0c ;(\"x",
            b"string 1:1 \"\x80\xff\t\r\n\x0c ;(\"|word 2:6 x|none",
        ),
    ];
    for (text, want) in &table {
        assert_eq!(rt; tokens_shown(rt.alloc(), text)?.bytes(), *want);
    }
    Ok(())
}

#[test]
fn strings_end_or_fail(rt: HostRuntime) -> Result<(), Fail> {
    let table: [(&[u8], &[u8]); 12] = [
        (b"(p \"abc", b"left 1:1 (|word 1:2 p|fault 2 1:4|none"),
        (b"\"", b"fault 2 1:1|none"),
        (b" \"a\\", b"fault 2 1:2|none"),
        (b"\"a\\\"", b"fault 2 1:1|none"),
        (b"\"a\\\"\"", b"string 1:1 \"a\\\"\"|none"),
        (b"\"a\\\\\"", b"string 1:1 \"a\\\\\"|none"),
        (b"\"\\\\\\\"\"", b"string 1:1 \"\\\\\\\"\"|none"),
        (b"(p \"a\\n\")", b"left 1:1 (|word 1:2 p|fault 5 1:6|none"),
        (b"\"\n\\\n\"", b"fault 5 2:1|none"),
        (b"\"a\x7f\"", b"fault 1 1:3|none"),
        (b"\"\n a\x0b\"", b"fault 1 2:3|none"),
        (b"\"\x00", b"fault 1 1:2|none"),
    ];
    for (text, want) in &table {
        assert_eq!(rt; tokens_shown(rt.alloc(), text)?.bytes(), *want);
    }
    Ok(())
}

#[test]
fn chunks_have_their_kinds(rt: HostRuntime) -> Result<(), Fail> {
    let table: [(&[u8], &[&[u8]]); 5] = [
        (
            b"word",
            &[b"a", b"Z9", b"a.b-c_1", b"a-", b"=>", b"<=>", b"e5"],
        ),
        (b"variable", &[b"?X", b"?1", b"?-", b"?.", b"?_a"]),
        (b"row", &[b"@R", b"@ROW-1", b"@0"]),
        (
            b"numeral",
            &[
                b"0", b"007", b"-1", b"1.5", b"-1.5e+3", b"1e0", b"2E-07", b"1.0E9",
            ],
        ),
        (
            b"",
            &[
                b"1.", b"-", b"1x", b"1e", b".5", b"=", b"?", b"@", b"+1", b"1e+", b"1.e5",
                b"1.5.2", b"--1", b"1e5x", b"_a", b"-a", b"==>", b"<=", b"?X?", b"@R@", b"a+b",
                b"a=>", b"=>a", b"!answer", b"a'", b"1e5.0", b"#", b"~",
            ],
        ),
    ];
    for (kind, chunks) in &table {
        for chunk in *chunks {
            let mut want = Text::new(rt.alloc());
            if kind.is_empty() {
                want.append(b"fault 6 1:1")?;
            } else {
                want.append(kind)?;
                want.append(b" 1:1 ")?;
                want.append(chunk)?;
            }
            want.append(b"|none")?;
            assert_eq!(rt; tokens_shown(rt.alloc(), chunk)?.bytes(), want.bytes());
        }
    }
    Ok(())
}

// ---- forms

#[test]
fn forms_have_numbers_and_places(rt: HostRuntime) -> Result<(), Fail> {
    let table: [(&[u8], &[u8]); 5] = [
        (b"", b""),
        (b" ; c", b""),
        (b"(p)(q)", b"7.1 1:1 (p)|7.2 1:4 (q)|"),
        (
            b"\xef\xbb\xbf(p\n a) ; c\n\n  (?X @R -1.5 \"a\\\"\\\\\nb\" (f))\n(not (=> (p) (q)))",
            b"7.1 1:4 (p a)|7.2 4:3 (?X @R -1.5 \"a\\\"\\\\\nb\" (f))|7.3 6:1 (not (=> (p) (q)))|",
        ),
        (
            b"(forall (?X @R) (exists (?Y) (and (p ?X ?Y @R) (or (q)) (<=> (p) (p)))))",
            b"7.1 1:1 (forall (?X @R) (exists (?Y) (and (p ?X ?Y @R) (or (q)) (<=> (p) (p)))))|",
        ),
    ];
    for (text, want) in &table {
        assert_eq!(rt; forms_shown(rt.alloc(), text)?.bytes(), *want);
    }
    Ok(())
}

#[test]
fn the_first_fault_is_told(rt: HostRuntime) -> Result<(), Fail> {
    let table: [(&[u8], &[u8]); 27] = [
        (b"(p a\x00) )", b"fault 1 1:5"),
        (b"(p \"abc", b"fault 2 1:4"),
        (b"(p)\n ((q) (r", b"fault 3 2:2"),
        (b"((", b"fault 3 1:1"),
        (b"(p a))", b"fault 4 1:6"),
        (b")(", b"fault 4 1:1"),
        (b"(p \"a\\n\")", b"fault 5 1:6"),
        (b"(p 1.)", b"fault 6 1:4"),
        // tokens go before open lists, and these before shapes
        (b"() ((p) \x7f", b"fault 1 1:9"),
        (b"() (p", b"fault 3 1:4"),
        (b"a ) (", b"fault 4 1:3"),
        // shapes
        (b"(p) a (q) b", b"fault 8 1:5"),
        (b"\"s\"", b"fault 8 1:1"),
        (b"(p)\n(q) ()", b"fault 8 2:5"),
        (b"(p (q ()) (1 a))", b"fault 8 1:7"),
        (b"(p (q a) (1 a))", b"fault 8 1:10"),
        (b"(\"s\" a)", b"fault 8 1:1"),
        (b"(@R a)", b"fault 8 1:1"),
        (b"((p) a)", b"fault 8 1:1"),
        (b"(p (not))", b"fault 8 1:4"),
        (b"(not (p) (q))", b"fault 8 1:1"),
        (b"(p) (and)", b"fault 8 1:5"),
        (b"(p (or) (and))", b"fault 8 1:4"),
        (b"(=> (p))", b"fault 8 1:1"),
        (b"(<=> (p) (q) (r))", b"fault 8 1:1"),
        (b"(forall () (p))", b"fault 8 1:9"),
        (b"(exists (?X a) ()) (p)", b"fault 8 1:1"),
    ];
    for (text, want) in &table {
        assert_eq!(rt; forms_shown(rt.alloc(), text)?.bytes(), *want);
    }
    Ok(())
}

/// So many times `(not ` before `(p)`, all closed.
fn nested(alloc: Global, times: u8) -> Result<Text, NoMemory> {
    let mut text = Text::new(alloc);
    for _ in 0..times {
        text.append(b"(not ")?;
    }
    text.append(b"(p)")?;
    for _ in 0..times {
        text.push(b')')?;
    }
    Ok(text)
}

#[test]
fn two_hundred_levels_are_read(rt: HostRuntime) -> Result<(), Fail> {
    let text = nested(rt.alloc(), 199)?;
    let mut want = Text::of(rt.alloc(), b"7.1 1:1 ")?;
    want.append(text.bytes())?;
    want.push(b'|')?;
    assert_eq!(rt;
        forms_shown(rt.alloc(), text.bytes())?.bytes(),
        want.bytes()
    );
    let text = nested(rt.alloc(), 200)?;
    assert_eq!(rt;
        forms_shown(rt.alloc(), text.bytes())?.bytes(),
        b"fault 7 1:1001".as_slice()
    );
    Ok(())
}

#[test]
fn fronts_and_ends_are_read_as_the_plain_reader_does(rt: HostRuntime) -> Result<(), Fail> {
    let table: [(&[u8], &[u8]); 7] = [
        (
            b"\xef\xbb\xbf; a comment (\"\\\x00\xff\r\n(instance Abel-1_x.y Man)\t(=> (and (p ?X) (q @ROW -12.5e+3 ?Y-1))\n  (exists (?Y @Z)\x0c(<=> (r \"a\\\"b\\\\c\n\td \xc3\xa9;\" 7)(not(s 0.5)))))\r\n(documentation ?X \"line\nline\" =>);\n(forall (?A @B)\n (or (p ?A \"\\\"\") (?F 1E-7 <=> a\"b\"c)\n (g 007 -0 2e5 (h (k ?1 @2 \"\") forall exists))))\n\n(f)(g)  ; end (",
            b"7.1 2:1 (instance Abel-1_x.y Man)|7.2 2:",
        ),
        (
            b"(p (exists () (q))\n ;(\n (not (p) (q)))\n(f) () (",
            b"fault 3 4:8",
        ),
        (b"(p)\n(and (q)) x \"s\" 1 ?v @r (p))", b"fault 4 2:28"),
        (b"(\"a\x7f\" b)", b"fault 1 1:4"),
        (b"(p) \"\\q\"", b"fault 5 1:6"),
        (
            b"(forall ((x)) y) (exists (p) q) (=> a) (or) (and) (not) (\"\") (1) (@R) ((p)) (p ())",
            b"fault 8 1:1",
        ),
        (b"\xef\xbb(", b"fault 1 1:1"),
    ];
    for (text, front) in &table {
        for len in 0..=text.len() {
            let (before, behind) = text.split_at(len);
            for part in [before, behind] {
                let want = answer_shown(rt.alloc(), part)?;
                assert_eq!(rt; forms_shown(rt.alloc(), part)?.bytes(), want.bytes());
            }
        }
        assert!(rt; forms_shown(rt.alloc(), text)?.bytes().starts_with(front));
    }
    Ok(())
}
