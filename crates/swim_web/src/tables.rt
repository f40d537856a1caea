//! Member tables, read back from a daemon's answer.

ghost use Rattle.std.specs.Prelude.{◌≡◌, ◌++◌, ◌∷◌, IfSome, None};
ghost use Rattle.swim_history.specs.Texts.{feed, row_text, state_text, table_text};
ghost use Rattle.swim_web.specs.Tables.{IsNoTable, row_of, state_of};

use swim_history::{Row, RowState, Table};
use swim_text::{cut, read_number};
use swim_wire::{Id, Peer};

/// Returns the table whose text an answer is, and `None` for one that is the text of no table.
pub fn read_table(answer: &[u8]) -> Option<Table>
    ensures found { IfSome result (λ table. answer.now ≡ table_text table.items) }
    ensures none { result ≡ None → IsNoTable answer.now }
{
    let mut table = Table::new();
    let mut rest = answer;
    while rest != b".\n".as_slice() {
        let (line, after) = cut(rest, b'\n')?;
        let row = read_row(line)?;
        if table.try_push(row).is_err() {
            return None;
        }
        rest = after;
    }
    Some(table)
}

/// Returns the row that a line is, which has no line feed here.
fn read_row(line: &[u8]) -> Option<Row>
    ensures exact { result ≡ row_of line.now }
    ensures found { IfSome result (λ row. line.now ++ feed ≡ row_text row) }
{
    let (id, rest) = cut(line, b' ')?;
    let (peer, state) = cut(rest, b' ')?;
    let id = Id::read(id)?;
    let peer = Peer::read(peer)?;
    let state = read_state(state)?;
    Some(Row { id, peer, state })
}

/// Returns the state that a text is.
fn read_state(text: &[u8]) -> Option<RowState>
    ensures exact { result ≡ state_of text.now }
    ensures found { IfSome result (λ state. 32 ∷ text.now ≡ state_text state) }
{
    if text == b"up".as_slice() {
        return Some(RowState::Up);
    }
    let (word, number) = cut(text, b' ')?;
    if word != b"failed".as_slice() {
        return None;
    }
    let number = read_number(number, u64::MAX)?;
    Some(RowState::Failed(number))
}
