//! Matching of forms.
ghost use Rattle.std.specs.Prelude.{IfOk, OnOk, MatchOption};
ghost use Rattle.kif_tree.specs.declared.form.Form.TheVariants as forms;
ghost use Rattle.kif_tree.specs.Terms.{variables};
ghost use Rattle.unify.specs.Bindings.{AreConsistent, Grows};
ghost use Rattle.unify.specs.Matching.{IsMatch, HasNoMatch, Tried, GivesForm, GivesForms, variables_of_all};

use crate::bindings::Bindings;
use kif_tree::{Form, Subst, Text, forms_equal};
use sigma_base::NoMemory;
use std::alloc::Global;

/// The substitution of the variables of the pattern, each once, under which the pattern is the target, or `None` where there is none.
/// Variables of the target stay as they are.
pub fn match_onto(alloc: Global, pattern: &Form, target: &Form) -> Result<Option<Subst>, NoMemory>
    ensures { IfOk result (λ answer. MatchOption answer (HasNoMatch pattern.now target.now) (λ subst. IsMatch subst.pairs pattern.now target.now)) }
{
    let mut bindings = Bindings::new(alloc);
    if !match_form(pattern, target, &mut bindings)? {
        return Ok(None);
    }
    Ok(Some(bindings.copied(alloc)?))
}

/// Binds the variables of the pattern that aren't bound yet so that it is the target. Where nothing does, some may be bound.
#[cycle(match_form)]
pub(crate) fn match_form<'a>(
    pattern: &'a Form,
    target: &'a Form,
    bindings: &mut Bindings<'a>,
) -> Result<bool, NoMemory>
    ensures grows { OnOk result (Grows bindings.old bindings.new) }
    ensures consistent { OnOk result (AreConsistent bindings.old → AreConsistent bindings.new) }
    ensures tried { IfOk result (λ done. AreConsistent bindings.old → Tried bindings.old bindings.new (GivesForm pattern.now target.now) (variables pattern.now) done) }
{
    match pattern {
        Form::Variable(name) => match_variable(name, target, bindings),
        Form::List(parts) => {
            let Form::List(others) = target else {
                return Ok(false);
            };
            match_parts(parts.items(), others.items(), bindings)
        }
        _ => Ok(forms_equal(pattern, target)),
    }
}

#[cycle(match_form)]
fn match_parts<'a>(
    patterns: &'a [Form],
    targets: &'a [Form],
    bindings: &mut Bindings<'a>,
) -> Result<bool, NoMemory>
    ensures grows { OnOk result (Grows bindings.old bindings.new) }
    ensures consistent { OnOk result (AreConsistent bindings.old → AreConsistent bindings.new) }
    ensures tried { IfOk result (λ done. AreConsistent bindings.old → Tried bindings.old bindings.new (GivesForms patterns.now targets.now) (variables_of_all patterns.now) done) }
{
    if patterns.len() != targets.len() {
        return Ok(false);
    }
    for at in 0..patterns.len() {
        if !match_form(&patterns[at], &targets[at], bindings)? {
            return Ok(false);
        }
    }
    Ok(true)
}

fn match_variable<'a>(
    name: &'a Text,
    target: &'a Form,
    bindings: &mut Bindings<'a>,
) -> Result<bool, NoMemory>
    ensures grows { OnOk result (Grows bindings.old bindings.new) }
    ensures consistent { OnOk result (AreConsistent bindings.old → AreConsistent bindings.new) }
    ensures tried { IfOk result (λ done. AreConsistent bindings.old → Tried bindings.old bindings.new (GivesForm (forms.Variable name.now) target.now) (variables (forms.Variable name.now)) done) }
{
    match bindings.find(name) {
        Some(term) => Ok(forms_equal(term, target)),
        None => {
            bindings.push(name, target)?;
            Ok(true)
        }
    }
}
