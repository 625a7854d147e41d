//! Forms as trees.
ghost use Rattle.std.specs.Prelude.{◌≡◌, IfOk};

use crate::text::Text;
use sigma_base::{Listed, NoMemory};
use std::alloc::Global;

/// A list of forms, which contracts see as one.
pub type Forms = Listed<Form>;

/// A form of SUO-KIF. A variable's text is without its prefix, and a quoted text without quotes and escapes.
#[derive(Debug, Drop)]
pub enum Form {
    Word(Text),
    Variable(Text),
    Row(Text),
    Numeral(Text),
    Quoted(Text),
    List(Forms),
}

impl Form {
    /// An equal form.
    #[cycle(copy)]
    pub fn copy(&self, alloc: Global) -> Result<Form, NoMemory>
        ensures { IfOk result (λ copy. copy ≡ self.now) }
    {
        match self {
            Form::Word(text) => Ok(Form::Word(text.copy(alloc)?)),
            Form::Variable(text) => Ok(Form::Variable(text.copy(alloc)?)),
            Form::Row(text) => Ok(Form::Row(text.copy(alloc)?)),
            Form::Numeral(text) => Ok(Form::Numeral(text.copy(alloc)?)),
            Form::Quoted(text) => Ok(Form::Quoted(text.copy(alloc)?)),
            Form::List(parts) => Ok(Form::List(copy_all(alloc, parts.items())?)),
        }
    }
}

/// Equal forms, in order.
#[cycle(copy)]
pub fn copy_all(alloc: Global, forms: &[Form]) -> Result<Forms, NoMemory>
    ensures { IfOk result (λ copies. copies ≡ forms.now) }
{
    let mut copies = Listed::new(alloc);
    for form in forms {
        copies.push(form.copy(alloc)?)?;
    }
    Ok(copies)
}
