//! What stands where in a TOML text.

/// A table: the top one, or one in a list of tables.
#[derive(Drop)]
pub struct Table {
    /// The number of the table that has the list. The top table, which has number 0, lies in none.
    pub around: Option<usize>,
    /// The number of the writing of the list's key.
    pub key: usize,
    /// The position in the list.
    pub index: u32,
    /// How many bytes of the text stand before the table's head or its brace.
    pub at: usize,
}

/// What is written at a key of a table.
#[derive(Drop)]
pub enum Said {
    /// The key itself.
    Key(String),
    /// The value of the key, or an element of its list.
    Text(String),
    Number(i64),
    Flag(bool),
    /// The list of the key begins.
    List,
    /// A table in the list of the key begins.
    Table,
    /// Any other value: a fraction, a date, a table that lies in no list, a list in a list.
    Else,
}

/// What is written at a key of a table, in the order of the text.
#[derive(Drop)]
pub struct Written {
    /// The number of the table.
    pub table: usize,
    /// The number of the writing of the key.
    pub key: usize,
    pub said: Said,
    /// How many bytes of the text stand before it.
    pub at: usize,
}

/// All that is written in a text.
#[derive(Drop)]
pub struct Layout {
    pub tables: Vec<Table>,
    pub writings: Vec<Written>,
}

impl Layout {
    /// The key whose writing has the number.
    pub fn key_text(&self, number: usize) -> &str {
        key_text(self.writings.as_slice(), number)
    }
}

/// The key whose writing has the number.
pub(crate) fn key_text(writings: &[Written], number: usize) -> &str {
    match writings.get(number) {
        Some(writing) => match &writing.said {
            Said::Key(text) => text.as_str(),
            _ => "",
        },
        None => "",
    }
}
