//! Reading a TOML text for the places of what stands in it. Of a text that is not TOML the writings end somewhere.
use crate::written::{Layout, Said, Table, Written, key_text};
use std::alloc::Global;
use toml_parser::text::{byte_at, first, skip, skip_blank, skip_ws};
use toml_parser::{
    ErrorKind, Key as DottedKey, ParseError, RECURSION_LIMIT, Scalar, dotted_key, quoted,
    starts_string, unquoted,
};

/// How many writings are kept. Of a text with more of them the rest is not read.
const MOST_MARKS: usize = 200_000;

/// How many tables are kept. Of a text with more of them the rest is not read.
const MOST_TABLES: usize = 4_096;

/// How many elements of a list are noted.
const MOST_ELEMENTS: usize = 128;

/// Where a value stands.
#[derive(Clone, Copy)]
enum Site {
    /// At a key: the number of its table, and of its writing.
    Value(usize, usize),
    /// In the list there.
    Element(usize, usize),
    /// Where nothing is noted.
    Elsewhere,
}

/// All that is written in the text, in its order. None where memory is refused.
pub fn layout_of(alloc: Global, text: &str) -> Option<Layout> {
    let mut reader = Reader {
        alloc,
        size: text.len(),
        open: Some(0),
        tables: Vec::new(alloc),
        writings: Vec::new(alloc),
    };
    match reader.read(text) {
        Err(ParseError::OutOfMemory) => None,
        _ => Some(reader.into_layout()),
    }
}

#[derive(Drop)]
struct Reader {
    alloc: Global,
    /// The bytes of the whole text.
    size: usize,
    /// The table of the last head, where that lies in a list of tables.
    open: Option<usize>,
    tables: Vec<Table>,
    writings: Vec<Written>,
}

impl Reader {
    fn into_layout(self) -> Layout {
        Layout {
            tables: self.tables,
            writings: self.writings,
        }
    }

    fn read(&mut self, text: &str) -> Result<(), ParseError> {
        self.tables.push(Table {
            around: None,
            key: 0,
            index: 0,
            at: 0,
        })?;
        let mut rest = match text.strip_prefix('\u{feff}') {
            Some(behind) => behind,
            None => text,
        };
        'statements: for _statement in 0..text.len() {
            let start = skip_blank(rest, true);
            if start.is_empty() {
                return Ok(());
            }
            rest = self.statement(start)?;
        }
        Ok(())
    }

    /// How many bytes of the text stand before this rest of it.
    fn bytes_before(&self, rest: &str) -> usize {
        self.size.saturating_sub(rest.len())
    }

    /// Notes what is written here, in front of the rest of the text.
    fn writing(
        &mut self,
        table: usize,
        key: usize,
        said: Said,
        rest: &str,
    ) -> Result<(), ParseError> {
        if self.writings.len() >= MOST_MARKS {
            return Err(ParseError::at(ErrorKind::Overflow, rest));
        }
        let at = self.bytes_before(rest);
        self.writings.push(Written {
            table,
            key,
            said,
            at,
        })?;
        Ok(())
    }

    /// Notes a key of a table, and answers the number of its writing.
    fn note_key(&mut self, table: usize, key: String, rest: &str) -> Result<usize, ParseError> {
        let number = self.writings.len();
        self.writing(table, number, Said::Key(key), rest)?;
        Ok(number)
    }

    /// Notes a value.
    fn note_value(&mut self, site: Site, said: Said, rest: &str) -> Result<(), ParseError> {
        match site {
            Site::Value(table, key) | Site::Element(table, key) => {
                self.writing(table, key, said, rest)
            }
            Site::Elsewhere => Ok(()),
        }
    }

    /// Reads a head, or a key with its value, and answers what follows.
    fn statement<'a>(&mut self, s: &'a str) -> Result<&'a str, ParseError> {
        if first(s) != b'[' {
            let (key, at_value) = key_equals(self.alloc, s)?;
            let site = self.define(self.open, key, s)?;
            return self.value(site, at_value, RECURSION_LIMIT);
        }
        if byte_at(s, 1) == b'[' {
            let (key, rest) = dotted_key(self.alloc, skip_ws(skip(s, 2)))?;
            self.open = self.head(key, true, s)?;
            return Ok(behind_bracket(behind_bracket(rest)));
        }
        let (key, rest) = dotted_key(self.alloc, skip_ws(skip(s, 1)))?;
        self.open = self.head(key, false, s)?;
        Ok(behind_bracket(rest))
    }

    /// Marks a key of a table, and answers where its value stands. A key with dots has a table for its value.
    fn define(
        &mut self,
        table: Option<usize>,
        key: DottedKey,
        rest: &str,
    ) -> Result<Site, ParseError> {
        let Some(table) = table else {
            return Ok(Site::Elsewhere);
        };
        let (name, dotted) = first_part(key);
        let key = self.note_key(table, name, rest)?;
        if dotted {
            self.writing(table, key, Said::Else, rest)?;
            return Ok(Site::Elsewhere);
        }
        Ok(Site::Value(table, key))
    }

    /// Marks the table that a head begins, and answers it, where it lies in a list of tables. The head of such a one is `double`.
    fn head(
        &mut self,
        key: DottedKey,
        double: bool,
        rest: &str,
    ) -> Result<Option<usize>, ParseError> {
        let DottedKey { path, last } = key;
        let mut table = 0;
        for part in path {
            match self.last_table(table, part.as_str()) {
                Some(inner) => table = inner,
                None => return self.lies_in_no_list(table, part, rest),
            }
        }
        if !double {
            return self.lies_in_no_list(table, last, rest);
        }
        let key = self.note_key(table, last, rest)?;
        let inner = self.begin(table, key, rest)?;
        Ok(Some(inner))
    }

    /// Marks a table that lies in no list.
    fn lies_in_no_list(
        &mut self,
        table: usize,
        name: String,
        rest: &str,
    ) -> Result<Option<usize>, ParseError> {
        let key = self.note_key(table, name, rest)?;
        self.writing(table, key, Said::Else, rest)?;
        Ok(None)
    }

    /// Marks that a table begins in the list at a key, and answers its number.
    fn begin(&mut self, around: usize, key: usize, rest: &str) -> Result<usize, ParseError> {
        let number = self.tables.len();
        if number >= MOST_TABLES {
            return Err(ParseError::at(ErrorKind::Overflow, rest));
        }
        self.writing(around, key, Said::Table, rest)?;
        let at = self.bytes_before(rest);
        let index = self.count_tables(around, key);
        self.tables.push(Table {
            around: Some(around),
            key,
            index,
            at,
        })?;
        Ok(number)
    }

    /// Whether the table lies in the list at a key of another.
    fn lies_in(&self, table: &Table, around: usize, key: &str) -> bool {
        table.around == Some(around) && key_text(self.writings.as_slice(), table.key) == key
    }

    /// The number of the last table in the list at a key.
    fn last_table(&self, around: usize, key: &str) -> Option<usize> {
        let mut last = None;
        for (number, table) in self.tables.as_slice().iter().enumerate() {
            if self.lies_in(table, around, key) {
                last = Some(number);
            }
        }
        last
    }

    /// How many tables lie in the list at the key of this writing.
    fn count_tables(&self, around: usize, key: usize) -> u32 {
        let text = key_text(self.writings.as_slice(), key);
        let mut count: u32 = 0;
        for table in self.tables.as_slice() {
            if self.lies_in(table, around, text) {
                count = count.saturating_add(1);
            }
        }
        count
    }

    /// Notes a value with what is in it, and answers what follows. In it there are lists and tables at most `depth` deep.
    #[cycle(value)]
    fn value<'a>(&mut self, site: Site, s: &'a str, depth: usize) -> Result<&'a str, ParseError> {
        let byte = first(s);
        if byte != b'[' && byte != b'{' {
            return self.atom(site, s);
        }
        if depth == 0 {
            return Err(ParseError::at(ErrorKind::Recursion, s));
        }
        if byte == b'[' {
            let inner = self.begin_list(site, s)?;
            self.list(inner, skip(s, 1), depth - 1)
        } else {
            let table = self.begin_table(site, s)?;
            self.table(table, skip(s, 1), depth - 1)
        }
    }

    fn atom<'a>(&mut self, site: Site, s: &'a str) -> Result<&'a str, ParseError> {
        if starts_string(s) {
            let (text, rest) = quoted(self.alloc, s)?;
            self.note_value(site, Said::Text(text), s)?;
            return Ok(rest);
        }
        let (scalar, rest) = unquoted(self.alloc, s)?;
        let said = match scalar {
            Scalar::Boolean(flag) => Said::Flag(flag),
            Scalar::Integer(number) => Said::Number(number),
            _ => Said::Else,
        };
        self.note_value(site, said, s)?;
        Ok(rest)
    }

    /// Marks that a list begins, and answers where its elements stand.
    fn begin_list(&mut self, site: Site, s: &str) -> Result<Site, ParseError> {
        match site {
            Site::Value(table, key) => {
                self.writing(table, key, Said::List, s)?;
                Ok(Site::Element(table, key))
            }
            Site::Element(table, key) => {
                self.writing(table, key, Said::Else, s)?;
                Ok(Site::Elsewhere)
            }
            Site::Elsewhere => Ok(Site::Elsewhere),
        }
    }

    /// Marks that a table in braces begins, and answers it, where it lies in a list.
    fn begin_table(&mut self, site: Site, s: &str) -> Result<Option<usize>, ParseError> {
        match site {
            Site::Value(table, key) => {
                self.writing(table, key, Said::Else, s)?;
                Ok(None)
            }
            Site::Element(table, key) => {
                let inner = self.begin(table, key, s)?;
                Ok(Some(inner))
            }
            Site::Elsewhere => Ok(None),
        }
    }

    #[cycle(value)]
    fn list<'a>(&mut self, site: Site, s: &'a str, depth: usize) -> Result<&'a str, ParseError> {
        let mut rest = s;
        'items: for item in 0..s.len() {
            let start = skip_blank(rest, true);
            if first(start) == b']' {
                return Ok(skip(start, 1));
            }
            let own = if item < MOST_ELEMENTS {
                site
            } else {
                Site::Elsewhere
            };
            rest = behind_comma(self.value(own, start, depth)?);
        }
        Ok(rest)
    }

    #[cycle(value)]
    fn table<'a>(
        &mut self,
        table: Option<usize>,
        s: &'a str,
        depth: usize,
    ) -> Result<&'a str, ParseError> {
        let mut rest = s;
        'members: for _member in 0..s.len() {
            let start = skip_blank(rest, true);
            if first(start) == b'}' {
                return Ok(skip(start, 1));
            }
            let (key, at_value) = key_equals(self.alloc, start)?;
            let site = self.define(table, key, start)?;
            rest = behind_comma(self.value(site, at_value, depth)?);
        }
        Ok(rest)
    }
}

/// A key, and its value behind `=`.
fn key_equals(alloc: Global, s: &str) -> Result<(DottedKey, &str), ParseError> {
    let (key, rest) = dotted_key(alloc, s)?;
    if first(rest) != b'=' {
        return Err(ParseError::at(ErrorKind::MissingEquals, rest));
    }
    Ok((key, skip_ws(skip(rest, 1))))
}

/// The first part of a key, and whether there are more.
fn first_part(key: DottedKey) -> (String, bool) {
    let DottedKey { path, last } = key;
    match path.into_iter().next() {
        Some(part) => (part, true),
        None => (last, false),
    }
}

/// What follows, behind a comma where there is one.
fn behind_comma(s: &str) -> &str {
    let rest = skip_blank(s, true);
    if first(rest) == b',' {
        skip(rest, 1)
    } else {
        rest
    }
}

/// What follows, behind a closing bracket where there is one.
fn behind_bracket(s: &str) -> &str {
    if first(s) == b']' { skip(s, 1) } else { s }
}
