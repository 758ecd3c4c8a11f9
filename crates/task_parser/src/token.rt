// The tokens of a program's text.

/// What a token is: a number with its value; a name; a data variable (its text begins with `$`); a text in quotes; a
/// reserved word; a mark. Words and marks are counted from 0 in this order:
///
/// - `lock unlock barrier record by from feed task var while if else fork into join read write print when and or not
///   self rows settle`
/// - `[` `]` `(` `)` `{` `}` `,` `;` `=` `==` `!=` `<` `<=` `>` `>=` `+` `-` `*` `/` `%`
#[derive(Clone, Copy, Debug, PartialEq, Eq)]
pub enum Kind {
    Num(i64),
    Name,
    Reg,
    Quoted,
    Word(u8),
    Mark(u8),
}

/// A token: its kind, the places of its first byte and of the byte after it, and the line of its first byte, from 1.
#[derive(Clone, Copy, Debug, PartialEq, Eq)]
pub struct Token {
    pub kind: Kind,
    pub from: u32,
    pub to: u32,
    pub line: u32,
}
