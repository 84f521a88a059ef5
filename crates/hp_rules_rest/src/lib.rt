//! The rules of the select modes, of in template and of foreign content (13.2.6).
#![tactic(auto)]

mod acts;
mod numbers;

ghost use Rattle.std.specs.Prelude.{◌≡◌, [], true, IfSome, is_some, unwrap_or};
ghost use Rattle.hp_elements.specs.Rules.{acts_for, acts_numbered, nests_within};
ghost use Rattle.hp_elements.specs.Tokens.{kind_of};
ghost use Rattle.hp_rules_rest.specs.Table.{all_rows, rows_of};
ghost use Rattle.hp_rules_rest.specs.Whole.{every_mode_rows};
ghost use Rattle.hp_elements.specs.declared.token.Kind.{Kind};
ghost use Rattle.hp_rules_rest.specs.Foreign.{foreign};

pub use acts::acts_numbered;
use hp_elements::{Mode, Token};
use numbers::*;

/// The number of the row that a token has in a mode; none exactly where the mode isn't one of these.
pub fn row(mode: Mode, token: &Token<'_>) -> Option<u16>
    ensures here { is_some result ≡ is_some (rows_of mode) }
    ensures acts { IfSome result (λ row. acts_numbered all_rows row ≡ acts_for (unwrap_or (rows_of mode) []) (kind_of token.now)) }
{
    let place = token.kind().place();
    let number = match mode {
        Mode::InSelect => IN_SELECT[place],
        Mode::InSelectInTable => IN_SELECT_IN_TABLE[place],
        Mode::InTemplate => IN_TEMPLATE[place],
        _ => return None,
    };
    Some(u16::from(number))
}

/// The number of the row that a token has in foreign content.
pub fn foreign_row(token: &Token<'_>) -> u16
    ensures { acts_numbered all_rows result ≡ acts_for foreign (kind_of token.now) }
{
    u16::from(FOREIGN[token.kind().place()])
}

/// A law of the whole table: for each mode and kind of token the rows use those of other modes at most four deep,
/// the mode's own counted (in row, in table, in body and in template at the end of input).
pub fn nesting()
    ensures { (mode : Mode) (token : Kind) → nests_within every_mode_rows 4 mode token ≡ true }
{}
