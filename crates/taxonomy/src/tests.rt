//! Each public call on few forms, against values worked by hand.
use crate::*;
use kif_tree::{Form, Located, Place, Text};
use sigma_base::{Listed, NoMemory};
use std::alloc::Global;
use std::test::Fail;

// ---- fixtures: parts with blanks between them, forms with semicolons; `?X` spells a variable, `"s` a string, a digit begins a numeral

fn part(alloc: Global, text: &[u8]) -> Result<Form, NoMemory> {
    match text {
        [b'?', name @ ..] => Ok(Form::Variable(Text::of(alloc, name)?)),
        [b'"', quoted @ ..] => Ok(Form::Quoted(Text::of(alloc, quoted)?)),
        [b'0'..=b'9', ..] => Ok(Form::Numeral(Text::of(alloc, text)?)),
        _ => Ok(Form::Word(Text::of(alloc, text)?)),
    }
}

fn list(alloc: Global, text: &[u8]) -> Result<Form, NoMemory> {
    let mut parts = Listed::new(alloc);
    for spelled in text.split(|byte| *byte == b' ') {
        parts.push(part(alloc, spelled)?)?;
    }
    Ok(Form::List(parts))
}

/// The place of a form by its number.
fn place(form: u32) -> Place {
    Place {
        constituent: 3,
        form,
        line: form,
        column: 1,
    }
}

fn forms(alloc: Global, text: &[u8]) -> Result<Listed<Located>, NoMemory> {
    let mut forms = Listed::new(alloc);
    let mut number: u32 = 0;
    for spelled in text.split(|byte| *byte == b';') {
        number = number.saturating_add(1);
        forms.push(Located {
            form: list(alloc, spelled)?,
            place: place(number),
        })?;
    }
    Ok(forms)
}

fn taxonomy(alloc: Global, text: &[u8]) -> Result<Taxonomy, NoMemory> {
    let forms = forms(alloc, text)?;
    Taxonomy::of(alloc, forms.items())
}

// ---- chains

const CYCLE: &[u8] = b"subclass A B;subclass B A;instance a A";

const DIAMONDS: &[u8] =
    b"subclass B1 A;subclass C1 A;subclass D B1;subclass D C1;subclass B2 D;subclass C2 D;subclass E B2;subclass E C2;instance e E;subrelation r s;subrelation s t";

#[test]
fn chains_lead_where_told_forms_join(rt: HostRuntime) -> Result<(), Fail> {
    let table: [(&[u8], ChainKind, &[u8], &[u8], bool); 24] = [
        (CYCLE, ChainKind::Class, b"A", b"A", true),
        (CYCLE, ChainKind::Class, b"A", b"B", true),
        (CYCLE, ChainKind::Class, b"B", b"B", true),
        (CYCLE, ChainKind::Instance, b"a", b"A", true),
        (CYCLE, ChainKind::Instance, b"a", b"B", true),
        (CYCLE, ChainKind::Class, b"a", b"A", false),
        (CYCLE, ChainKind::Instance, b"a", b"a", false),
        (CYCLE, ChainKind::Instance, b"A", b"B", false),
        (CYCLE, ChainKind::Class, b"A", b"C", false),
        (CYCLE, ChainKind::Class, b"C", b"C", false),
        (DIAMONDS, ChainKind::Class, b"E", b"A", true),
        (DIAMONDS, ChainKind::Class, b"E", b"B1", true),
        (DIAMONDS, ChainKind::Class, b"E", b"C1", true),
        (DIAMONDS, ChainKind::Class, b"B2", b"C2", false),
        (DIAMONDS, ChainKind::Class, b"A", b"E", false),
        (DIAMONDS, ChainKind::Class, b"E", b"E", false),
        (DIAMONDS, ChainKind::Instance, b"e", b"E", true),
        (DIAMONDS, ChainKind::Instance, b"e", b"D", true),
        (DIAMONDS, ChainKind::Instance, b"e", b"A", true),
        (DIAMONDS, ChainKind::Class, b"e", b"A", false),
        (DIAMONDS, ChainKind::Relation, b"r", b"t", true),
        (DIAMONDS, ChainKind::Relation, b"r", b"r", false),
        (DIAMONDS, ChainKind::Class, b"r", b"t", false),
        (DIAMONDS, ChainKind::Relation, b"E", b"A", false),
    ];
    for (text, kind, low, high, want) in &table {
        let told = taxonomy(rt.alloc(), text)?;
        assert_eq!(rt; told.is_above(*kind, low, high), *want);
    }
    Ok(())
}

#[test]
fn other_lists_tell_nothing(rt: HostRuntime) -> Result<(), Fail> {
    let table: [&[u8]; 8] = [
        b"subclass A B C",
        b"subclass ?X B",
        b"subclass A \"B",
        b"\"subclass A B",
        b"?P A B",
        b"subclass A 2",
        b"subclass A",
        b"subclasses A B",
    ];
    for text in &table {
        let told = taxonomy(rt.alloc(), text)?;
        assert!(rt; !told.is_above(ChainKind::Class, b"A", b"B"));
        assert!(rt; told.parents(b"A").is_empty());
    }
    Ok(())
}

// ---- what is told of a word

fn shows(told: &Told, kind: ChainKind, parent: &[u8], form: u32) -> bool {
    told.kind == kind && told.parent.bytes() == parent && told.place == place(form)
}

#[test]
fn parents_stand_in_order_of_the_forms(rt: HostRuntime) -> Result<(), Fail> {
    let told = taxonomy(
        rt.alloc(),
        b"subclass A B;instance A C;p A B;subrelation A B;subclass B A;subclass A B",
    )?;
    let row = told.parents(b"A");
    assert_eq!(rt; row.len(), 4);
    let table: [(ChainKind, &[u8], u32); 4] = [
        (ChainKind::Class, b"B", 1),
        (ChainKind::Instance, b"C", 2),
        (ChainKind::Relation, b"B", 4),
        (ChainKind::Class, b"B", 6),
    ];
    for (found, (kind, parent, form)) in row.iter().zip(table.iter()) {
        assert!(rt; shows(found, *kind, parent, *form));
    }
    assert!(rt; told.parents(b"C").is_empty());
    assert!(rt; told.parents(b"Z").is_empty());
    Ok(())
}

// ---- disjoint words

const KINDS: &[u8] =
    b"subclass Cat Animal;subclass Oak Plant;subclass Animal Thing;subclass Plant Thing;partition Thing Animal Plant;disjoint Plant Animal;instance tom Cat;instance tree Oak;subclass Odd Animal;subclass Odd Plant";

const CYCLES: &[u8] = b"subclass A B;subclass B A;disjoint A A;disjoint A B";

const SAME: &[u8] = b"disjoint C C;partition W C C;disjointDecomposition W D;partition W D E F";

#[test]
fn the_first_told_form_separates(rt: HostRuntime) -> Result<(), Fail> {
    let table: [(&[u8], &[u8], &[u8], Option<u32>); 22] = [
        (KINDS, b"Animal", b"Plant", Some(5)),
        (KINDS, b"Plant", b"Animal", Some(5)),
        (KINDS, b"Cat", b"Oak", Some(5)),
        (KINDS, b"Oak", b"Cat", Some(5)),
        (KINDS, b"tom", b"tree", Some(5)),
        (KINDS, b"tom", b"Plant", Some(5)),
        (KINDS, b"Odd", b"Odd", Some(5)),
        (KINDS, b"Odd", b"Cat", Some(5)),
        (KINDS, b"Cat", b"Cat", None),
        (KINDS, b"Cat", b"Thing", None),
        (KINDS, b"Thing", b"Plant", None),
        (KINDS, b"Cat", b"Unknown", None),
        (CYCLES, b"A", b"A", Some(4)),
        (CYCLES, b"A", b"B", Some(4)),
        (CYCLES, b"B", b"B", Some(4)),
        (SAME, b"C", b"C", None),
        (SAME, b"C", b"D", None),
        (SAME, b"W", b"D", None),
        (SAME, b"D", b"E", Some(4)),
        (SAME, b"F", b"D", Some(4)),
        (SAME, b"E", b"E", None),
        (b"disjoint A B", b"B", b"A", Some(1)),
    ];
    for (text, first, second, want) in &table {
        let told = taxonomy(rt.alloc(), text)?;
        assert_eq!(rt; told.are_disjoint(first, second), want.map(place));
    }
    Ok(())
}

// ---- words that are disjoint from themselves

const LISTED: &[u8] = b"disjoint A B;subclass A B;instance a A;subclass C A";

const TWO_CLASSES: &[u8] = b"instance i A;instance i B;partition W A B C;instance j A";

const LISTED_INSTANCE: &[u8] = b"instance i A;disjoint i A;instance j i";

const ROUND: &[u8] = b"subclass A B;subclass B A;disjoint B C;disjoint A B;instance a B";

const TWICE: &[u8] = b"disjoint A A;partition W A A;subclass B A;instance b B";

const SECOND: &[u8] =
    b"disjoint A C;disjoint A B;subclass D A;subclass D B;instance d D;disjointDecomposition W B A";

const STEPS: &[u8] = b"instance i A;instance A B;disjoint A B;subrelation r s;disjoint r s";

#[test]
fn words_below_two_listed_words_are_disjoint_from_themselves(rt: HostRuntime) -> Result<(), Fail> {
    let table: [(&[u8], &[u8], Option<u32>); 29] = [
        (LISTED, b"A", Some(1)),
        (LISTED, b"B", None),
        (LISTED, b"a", Some(1)),
        (LISTED, b"C", Some(1)),
        (TWO_CLASSES, b"i", Some(3)),
        (TWO_CLASSES, b"j", None),
        (TWO_CLASSES, b"A", None),
        (TWO_CLASSES, b"W", None),
        (LISTED_INSTANCE, b"i", Some(2)),
        (LISTED_INSTANCE, b"A", None),
        (LISTED_INSTANCE, b"j", None),
        (ROUND, b"A", Some(4)),
        (ROUND, b"B", Some(4)),
        (ROUND, b"a", Some(4)),
        (ROUND, b"C", None),
        (TWICE, b"A", None),
        (TWICE, b"B", None),
        (TWICE, b"b", None),
        (SECOND, b"D", Some(2)),
        (SECOND, b"d", Some(2)),
        (SECOND, b"A", None),
        (SECOND, b"B", None),
        (STEPS, b"i", None),
        (STEPS, b"A", Some(3)),
        (STEPS, b"B", None),
        (STEPS, b"r", None),
        (STEPS, b"s", None),
        (STEPS, b"Z", None),
        (b"p A B", b"A", None),
    ];
    for (text, word, want) in &table {
        let told = taxonomy(rt.alloc(), text)?;
        assert_eq!(rt; told.are_disjoint(word, word), want.map(place));
    }
    Ok(())
}
