//! Forms at a path of argument places, the lists round them, and the sides of equalities.
ghost use Rattle.std.specs.Prelude.{◌≡◌, ◌∷◌, [], ◌++◌, ◌<◌, length, get_or, map, Some, IfOk, OnOk};
ghost use Rattle.kif_tree.specs.declared.form.Form.{Form};
ghost use Rattle.kif_tree.specs.Subst.{bind, filling_of};
ghost use Rattle.calculus.specs.Rules as rules;

use calculus::{Frame, Opened, Sides};
use kif_tree::{Form, Forms, Pair, Unnamed, copy_all, fill, is_headed};
use sigma_base::{Listed, NoMemory};
use std::alloc::Global;

/// The sides of an equality with just two arguments.
pub fn sides(alloc: Global, atom: &Form) -> Result<Option<Sides>, NoMemory>
    ensures { IfOk result (λ answer. answer ≡ rules.sides atom.now) }
{
    let Form::List(parts) = atom else {
        return Ok(None);
    };
    let parts = parts.items();
    if parts.len() != 3 {
        return Ok(None);
    }
    if !is_headed(atom, b"equal") {
        return Ok(None);
    }
    let left = parts[1].copy(alloc)?;
    let right = parts[2].copy(alloc)?;
    Ok(Some(Sides { left, right }))
}

/// The form at the path, and the lists that it stands in.
pub fn open(alloc: Global, form: &Form, path: &[u64]) -> Result<Option<Opened>, NoMemory>
    ensures { IfOk result (λ answer. answer ≡ rules.opened path.now form.now) }
{
    let [place, rest @ ..] = path else {
        return Ok(Some(Opened {
            frames: Listed::new(alloc),
            inner: form.copy(alloc)?,
        }));
    };
    let Form::List(parts) = form else {
        return Ok(None);
    };
    let parts = parts.items();
    let at = *place as usize;
    if at == 0 {
        return Ok(None);
    }
    if at >= parts.len() {
        return Ok(None);
    }
    let Some(inside) = open(alloc, &parts[at], rest)? else {
        return Ok(None);
    };
    let frame = frame_at(alloc, parts, at)?;
    Ok(Some(put_around(alloc, frame, inside)?))
}

/// The list of these parts without the one at that place.
fn frame_at(alloc: Global, parts: &[Form], at: usize) -> Result<Frame, NoMemory>
    requires argument { 0 < at }
    requires there { at < length parts.now }
    ensures { IfOk result (λ frame. (inner : Form) → inner ≡ get_or parts.now at inner → rules.argument_of parts.now at ≡ Some (record { frame = frame; inner = inner })) }
{
    let before = copy_all(alloc, &parts[1..at])?;
    let following = copy_all(alloc, &parts[at + 1..])?;
    let head = parts[0].copy(alloc)?;
    Ok(Frame {
        head,
        before,
        following,
    })
}

fn put_around(alloc: Global, frame: Frame, inside: Opened) -> Result<Opened, NoMemory>
    ensures { IfOk result (λ whole. whole ≡ rules.put_around frame inside) }
{
    let Opened {
        frames: more,
        inner,
    } = inside;
    let mut frames = Listed::new(alloc);
    frames.push(frame)?;
    frames.append(more)?;
    Ok(Opened { frames, inner })
}

/// The list with that argument.
pub fn framed(alloc: Global, frame: &Frame, argument: &Form) -> Result<Form, NoMemory>
    ensures { IfOk result (λ list. list ≡ rules.framed frame.now argument.now) }
{
    let mut parts = Listed::new(alloc);
    parts.push(frame.head.copy(alloc)?)?;
    parts.append(copy_all(alloc, frame.before.items())?)?;
    parts.push(argument.copy(alloc)?)?;
    parts.append(copy_all(alloc, frame.following.items())?)?;
    Ok(Form::List(parts))
}

/// The form inside the lists.
pub fn plugged(alloc: Global, frames: &[Frame], inner: &Form) -> Result<Form, NoMemory>
    ensures { IfOk result (λ whole. whole ≡ rules.plugged frames.now inner.now) }
{
    let [frame, rest @ ..] = frames else {
        return inner.copy(alloc);
    };
    let inside = plugged(alloc, rest, inner)?;
    framed(alloc, frame, &inside)
}

/// The lists under the substitution.
pub fn fill_frames(
    alloc: Global,
    frames: &[Frame],
    pairs: &[Pair],
    unnamed: Unnamed,
) -> Result<Listed<Frame>, NoMemory>
    ensures { IfOk result (λ filled. filled ≡ map (rules.bind_frame (filling_of unnamed pairs.now)) frames.now) }
{
    let mut filled = Listed::new(alloc);
    for frame in frames {
        filled.push(fill_frame(alloc, frame, pairs, unnamed)?)?;
    }
    Ok(filled)
}

fn fill_frame(
    alloc: Global,
    frame: &Frame,
    pairs: &[Pair],
    unnamed: Unnamed,
) -> Result<Frame, NoMemory>
    ensures { IfOk result (λ filled. filled ≡ rules.bind_frame (filling_of unnamed pairs.now) frame.now) }
{
    let before = fill_each(alloc, frame.before.items(), pairs, unnamed)?;
    let following = fill_each(alloc, frame.following.items(), pairs, unnamed)?;
    let head = fill(alloc, &frame.head, pairs, unnamed)?;
    Ok(Frame {
        head,
        before,
        following,
    })
}

fn fill_each(
    alloc: Global,
    forms: &[Form],
    pairs: &[Pair],
    unnamed: Unnamed,
) -> Result<Forms, NoMemory>
    ensures { IfOk result (λ filled. filled ≡ map (bind (filling_of unnamed pairs.now)) forms.now) }
{
    let mut filled = Listed::new(alloc);
    for form in forms {
        filled.push(fill(alloc, form, pairs, unnamed)?)?;
    }
    Ok(filled)
}
