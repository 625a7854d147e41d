//! Which names are free in a form, and in which order.
use crate::tests_profile::read;
use crate::*;
use sigma_base::NoMemory;
use std::alloc::Global;
use std::test::Fail;

// the free names of the one form that is spelled, as a list
fn free_in(alloc: Global, spelled: &str) -> Result<Text, NoMemory> {
    match read(alloc, spelled)?.items() {
        [form] => print_form(alloc, &Form::List(free_names(alloc, form)?)),
        _ => Ok(Text::new(alloc)),
    }
}

#[test]
fn free_names_stand_in_order_of_their_first_free_occurrence(rt: HostRuntime) -> Result<(), Fail> {
    let table = [
        ("(p a \"?X\" 1)", "()"),
        ("?X", "(?X)"),
        ("(p ?Y @X ?X ?Y @X)", "(?Y @X ?X)"),
        ("(?F (?G ?X) ?F)", "(?F ?G ?X)"),
        ("(exists (?X) (r ?X ?Y))", "(?Y)"),
        ("(and (exists (?X) (p ?X ?Y)) (q ?X))", "(?Y ?X)"),
        ("(and (q ?X) (exists (?X) (p ?X ?Y)))", "(?X ?Y)"),
        (
            "(forall (?X) (and (exists (?X ?Y) (r ?X ?Y)) (r ?X ?Y)))",
            "(?Y)",
        ),
        ("(forall (@X) (p ?X @X))", "(?X)"),
        ("(forall (?X ?X) (p ?X ?Z))", "(?Z)"),
        ("(forall (?X) (p ?X) (q ?X))", "(?X)"),
        ("(exists (?X a) (p ?Y ?X))", "(?X ?Y)"),
        ("(forall (?X) ?X)", "()"),
    ];
    for (spelled, want) in &table {
        let found = free_in(rt.alloc(), spelled)?;
        assert_eq!(rt; found.bytes(), want.as_bytes());
    }
    Ok(())
}
