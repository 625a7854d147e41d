//! Tokens, and why a text isn't read.
ghost use Rattle.std.specs.Prelude.{◌≡◌};

use crate::bytes::Spot;
use kif_tree::Forms;
use sigma_base::NoMemory;

/// What a token is. A variable begins with `?`, a row variable with `@`, and a string stands between its quotes.
#[derive(Clone, Copy, Debug, PartialEq, Eq)]
pub enum TokenKind {
    Left,
    Right,
    Word,
    Variable,
    Row,
    Numeral,
    Quoted,
}

/// What is wrong at a byte, where no token can be taken.
#[derive(Clone, Copy, Debug, PartialEq, Eq)]
pub enum Fault {
    BadByte,
    OpenString,
    BadEscape,
    BadWord,
}

/// What comes behind the bytes of a string.
#[derive(Clone, Copy, Debug, PartialEq, Eq)]
pub enum StringEnd {
    Quote,
    Missing,
    BadByte,
    BadEscape,
}

/// A token with its bytes, which are lent out of the text as they stand there, and the place of the first of them.
#[derive(Clone, Copy, Debug)]
pub struct Token<'a> {
    pub kind: TokenKind,
    pub text: &'a [u8],
    pub line: u32,
    pub column: u32,
}

/// Why no token can be taken, and the place of that, as the causes of the same names of `ReadError` say.
#[derive(Clone, Copy, Debug, PartialEq, Eq)]
pub enum LexError {
    BadByte(Spot),
    OpenString(Spot),
    BadEscape(Spot),
    BadWord(Spot),
}

/// Why a text isn't read: the first fault of the text, with its place. In their order the faults have the codes 1 to 8.
#[derive(Clone, Copy, Debug, PartialEq, Eq)]
pub enum ReadError {
    /// A byte that may not stand there, outside a string or inside one.
    BadByte(Spot),
    /// The text ends inside the string that begins there.
    OpenString(Spot),
    /// The text ends inside a list; the place is that of the outermost one.
    OpenList(Spot),
    /// A closing parenthesis where no list is open.
    StrayClose(Spot),
    /// A backslash in a string before another byte than a quote or a backslash.
    BadEscape(Spot),
    /// A chunk that is no word, variable, row variable or numeral.
    BadWord(Spot),
    /// An opening parenthesis that would nest 201 levels deep.
    TooDeep(Spot),
    /// A form that isn't a list, or a list whose parts its head doesn't take.
    LogicShape(Spot),
    /// An allocation was refused, which says nothing of the text.
    NoMemory,
}

impl From<NoMemory> for ReadError {
    ghost use Rattle.kif_reader.specs.declared.kinds.ReadError.TheVariants as unread;

    ghost from_gives = { λ _ error. error ≡ unread.NoMemory };

    fn from(_: NoMemory) -> ReadError {
        ReadError::NoMemory
    }
}

/// A list that isn't closed yet: the place of its parenthesis, and its parts so far.
#[derive(Debug, Drop)]
pub struct Open {
    pub line: u32,
    pub column: u32,
    pub parts: Forms,
}
