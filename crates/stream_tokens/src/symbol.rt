//! The symbols, and the one at the front of a text.
ghost use Rattle.std.specs.Prelude.{◌≡◌, ◌<◌, length};
ghost use Rattle.stream_tokens.specs.Symbols.{spelling_of};
ghost use Rattle.stream_tokens.specs.Scanning.{pair_of, single_of, symbol_at};

/// A symbol, named by its shape or by its meaning in an expression.
#[derive(Clone, Copy, Debug, PartialEq, Eq)]
pub enum Symbol {
    /// `->`
    Arrow,
    /// `::`
    DoubleColon,
    /// `<<`
    ShiftLeft,
    /// `>>`
    ShiftRight,
    /// `>>>`
    ShiftRightUnsigned,
    /// `<=`
    LessOrEqual,
    /// `>=`
    GreaterOrEqual,
    /// `==`
    Equal,
    /// `!=`
    NotEqual,
    /// `&&`
    AndAnd,
    /// `||`
    OrOr,
    /// `++`
    PlusPlus,
    /// `--`
    MinusMinus,
    /// `(`
    Open,
    /// `)`
    Close,
    /// `,`
    Comma,
    /// `.`
    Dot,
    /// `;`
    Semicolon,
    /// `=`
    Assign,
    /// `<`
    Less,
    /// `>`
    Greater,
    /// `+`
    Plus,
    /// `-`
    Minus,
    /// `*`
    Star,
    /// `/`
    Slash,
    /// `%`
    Percent,
    /// `&`
    And,
    /// `|`
    Or,
    /// `^`
    Xor,
    /// `~`
    Tilde,
    /// `!`
    Bang,
    /// `?`
    Question,
    /// `:`
    Colon,
}

impl Symbol {
    /// The symbol as it is written, in ASCII.
    pub fn spelling(self) -> &'static str
        ensures { result.now ≡ spelling_of self }
    {
        match self {
            Symbol::Arrow => "->",
            Symbol::DoubleColon => "::",
            Symbol::ShiftLeft => "<<",
            Symbol::ShiftRight => ">>",
            Symbol::ShiftRightUnsigned => ">>>",
            Symbol::LessOrEqual => "<=",
            Symbol::GreaterOrEqual => ">=",
            Symbol::Equal => "==",
            Symbol::NotEqual => "!=",
            Symbol::AndAnd => "&&",
            Symbol::OrOr => "||",
            Symbol::PlusPlus => "++",
            Symbol::MinusMinus => "--",
            Symbol::Open => "(",
            Symbol::Close => ")",
            Symbol::Comma => ",",
            Symbol::Dot => ".",
            Symbol::Semicolon => ";",
            Symbol::Assign => "=",
            Symbol::Less => "<",
            Symbol::Greater => ">",
            Symbol::Plus => "+",
            Symbol::Minus => "-",
            Symbol::Star => "*",
            Symbol::Slash => "/",
            Symbol::Percent => "%",
            Symbol::And => "&",
            Symbol::Or => "|",
            Symbol::Xor => "^",
            Symbol::Tilde => "~",
            Symbol::Bang => "!",
            Symbol::Question => "?",
            Symbol::Colon => ":",
        }
    }
}

/// The symbol of two bytes.
fn pair(first: u8, second: u8) -> Option<Symbol>
    ensures { result ≡ pair_of first second }
{
    match (first, second) {
        (b'-', b'>') => Some(Symbol::Arrow),
        (b':', b':') => Some(Symbol::DoubleColon),
        (b'<', b'<') => Some(Symbol::ShiftLeft),
        (b'>', b'>') => Some(Symbol::ShiftRight),
        (b'<', b'=') => Some(Symbol::LessOrEqual),
        (b'>', b'=') => Some(Symbol::GreaterOrEqual),
        (b'=', b'=') => Some(Symbol::Equal),
        (b'!', b'=') => Some(Symbol::NotEqual),
        (b'&', b'&') => Some(Symbol::AndAnd),
        (b'|', b'|') => Some(Symbol::OrOr),
        (b'+', b'+') => Some(Symbol::PlusPlus),
        (b'-', b'-') => Some(Symbol::MinusMinus),
        _ => None,
    }
}

/// The symbol of one byte.
fn single(first: u8) -> Option<Symbol>
    ensures { result ≡ single_of first }
{
    match first {
        b'(' => Some(Symbol::Open),
        b')' => Some(Symbol::Close),
        b',' => Some(Symbol::Comma),
        b'.' => Some(Symbol::Dot),
        b';' => Some(Symbol::Semicolon),
        b'=' => Some(Symbol::Assign),
        b'<' => Some(Symbol::Less),
        b'>' => Some(Symbol::Greater),
        b'+' => Some(Symbol::Plus),
        b'-' => Some(Symbol::Minus),
        b'*' => Some(Symbol::Star),
        b'/' => Some(Symbol::Slash),
        b'%' => Some(Symbol::Percent),
        b'&' => Some(Symbol::And),
        b'|' => Some(Symbol::Or),
        b'^' => Some(Symbol::Xor),
        b'~' => Some(Symbol::Tilde),
        b'!' => Some(Symbol::Bang),
        b'?' => Some(Symbol::Question),
        b':' => Some(Symbol::Colon),
        _ => None,
    }
}

/// The symbol at the front of a text, the longest one.
pub fn symbol_front(text: &[u8]) -> Option<Symbol>
    requires { 0 < length text.now }
    ensures { result ≡ symbol_at text.now }
{
    let first = text[0];
    if text.starts_with(b">>>") {
        return Some(Symbol::ShiftRightUnsigned);
    }
    let two = match text.get(1) {
        Some(second) => pair(first, *second),
        None => None,
    };
    two.or(single(first))
}
