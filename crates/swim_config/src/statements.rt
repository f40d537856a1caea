//! In which line of a document a statement begins.

use std::alloc::Global;
use toml_parser::text::{byte_at, first, skip, skip_blank, skip_ws};
use toml_parser::{dotted_key, quoted, starts_string};

/// What is looked for in a document.
#[derive(Clone, Copy)]
pub enum StatementPlace<'a> {
    /// A key of the document, or a table of that name.
    Top(&'a str),
    /// The header of the member of that number, from 0 on.
    Member(usize),
    /// A key of that member.
    InMember(usize, &'a str),
}

/// To what the keys belong that follow.
#[derive(Clone, Copy, PartialEq, Eq)]
enum Scope {
    /// To the document.
    Top,
    /// To the member of that number.
    Member(usize),
    /// To another table.
    Other,
}

/// The beginning of a statement: a key, or the header of a table.
#[derive(Drop)]
struct StatementHead {
    /// The first part of its key.
    name: String,
    /// Whether it begins a table.
    is_header: bool,
    /// Whether it begins an item of an array of tables.
    is_item: bool,
}

/// The number, from 1 on, of the line where the statement begins. `None` where there is none, or memory is refused.
pub fn line_of(alloc: Global, text: &str, place: StatementPlace<'_>) -> Option<usize> {
    let mut rest = skip_blank(text, true);
    let mut scope = Scope::Top;
    let mut members: usize = 0;
    for _statement in 0..text.len() {
        let (head, after) = read_head(alloc, rest)?;
        if head.is_header {
            scope = Scope::Other;
        }
        if head.is_item && head.name.as_str() == "member" {
            scope = Scope::Member(members);
            members = members.saturating_add(1);
        }
        if begins(&head, scope, place) {
            return Some(line_at(text.as_bytes(), text.len().saturating_sub(rest.len())));
        }
        rest = skip_blank(skip_statement(alloc, after)?, true);
    }
    None
}

/// The number, from 1 on, of the line in which the byte of that index stands.
pub fn line_at(bytes: &[u8], index: usize) -> usize {
    let before = bytes.iter().take(index);
    before
        .filter(|byte| **byte == b'\n')
        .count()
        .saturating_add(1)
}

/// Whether a statement is what is looked for.
fn begins(head: &StatementHead, scope: Scope, place: StatementPlace<'_>) -> bool {
    match place {
        StatementPlace::Top(name) => (scope == Scope::Top || head.is_header)
            && head.name.as_str() == name,
        StatementPlace::Member(member) => head.is_header && scope == Scope::Member(member),
        StatementPlace::InMember(member, name) => {
            !head.is_header && scope == Scope::Member(member) && head.name.as_str() == name
        }
    }
}

/// The beginning of the statement at the front of a text, and what follows.
fn read_head(alloc: Global, text: &str) -> Option<(StatementHead, &str)> {
    let is_header = first(text) == b'[';
    let is_item = is_header && byte_at(text, 1) == b'[';
    let named = if is_item {
        skip(text, 2)
    } else if is_header {
        skip(text, 1)
    } else {
        text
    };
    let (key, rest) = dotted_key(alloc, skip_ws(named)).ok()?;
    let name = key.path.into_iter().next().unwrap_or(key.last);
    let head = StatementHead {
        name,
        is_header,
        is_item,
    };
    Some((head, rest))
}

/// What follows the rest of a statement: the line's end, or a comment.
fn skip_statement(alloc: Global, text: &str) -> Option<&str> {
    let mut rest = text;
    let mut depth: usize = 0;
    for _token in 0..text.len() {
        let byte = first(rest);
        if byte == 0 || depth == 0 && (byte == b'\n' || byte == b'#') {
            return Some(rest);
        }
        if byte == b'[' || byte == b'{' {
            depth = depth.saturating_add(1);
        }
        if byte == b']' || byte == b'}' {
            depth = depth.saturating_sub(1);
        }
        rest = skip_token(alloc, rest)?;
    }
    Some(rest)
}

/// What follows a string, a comment, or a character. `None` for one beyond ASCII, which stands in strings and comments
/// alone.
fn skip_token(alloc: Global, text: &str) -> Option<&str> {
    let byte = first(text);
    if starts_string(text) {
        Some(quoted(alloc, text).ok()?.1)
    } else if byte == b'#' {
        Some(skip_blank(text, true))
    } else if 0 < byte && byte < 128 {
        Some(skip(text, 1))
    } else {
        None
    }
}
