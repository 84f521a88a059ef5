//! The rules of the modes of tables (13.2.6).
#![tactic(auto)]

mod acts;
mod numbers;

ghost use Rattle.std.specs.Prelude.{◌≡◌, [], IfSome, is_some, unwrap_or};
ghost use Rattle.hp_elements.specs.Rules.{acts_for, acts_numbered};
ghost use Rattle.hp_elements.specs.Tokens.{kind_of};
ghost use Rattle.hp_rules_table.specs.Table.{all_rows, rows_of};

pub use acts::acts_numbered;
use hp_elements::{Mode, Token};
use numbers::*;

/// The number of the row that a token has in a mode; none exactly where the mode isn't one of these.
pub fn row(mode: Mode, token: &Token<'_>) -> Option<u16>
    ensures here { is_some result ≡ is_some (rows_of mode) }
    ensures acts { IfSome result (λ row. acts_numbered all_rows row ≡ acts_for (unwrap_or (rows_of mode) []) (kind_of token.now)) }
{
    let place = token.kind().place();
    let number = match mode {
        Mode::InTable => IN_TABLE[place],
        Mode::InTableText => IN_TABLE_TEXT[place],
        Mode::InCaption => IN_CAPTION[place],
        Mode::InColumnGroup => IN_COLUMN_GROUP[place],
        Mode::InTableBody => IN_TABLE_BODY[place],
        Mode::InRow => IN_ROW[place],
        Mode::InCell => IN_CELL[place],
        _ => return None,
    };
    Some(u16::from(number))
}
