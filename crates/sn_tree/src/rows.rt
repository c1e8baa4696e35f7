//! The nodes of a walk, one after the other.
ghost use Rattle.std.specs.Prelude.{◌≡◌};
ghost use Rattle.std.specs.Iterator.{YieldsFirstBy, item_count};
ghost use Rattle.sn_tree.specs.Keyed.{rows_of};

use crate::cursor::{Cursor, Row};
use std::iter::FusedIterator;
use std::marker::Model;

/// The nodes of a walk, seen as the list of those that are left.
#[derive(Drop)]
pub struct Rows<'a> {
    rest: Cursor<'a>,
}

impl<'a> Model for Rows<'a> {
    ghost use Rattle.std.specs.Prelude.{List, ℕ};
    ghost use Rattle.sn_tree.specs.declared.item.Item.{Item};
    ghost use Rattle.sn_tree.specs.Keyed.{rows_of};
    ghost use Rattle.sn_tree.specs.Stored.{rows_code};

    ghost Value = { List (ℕ × Item) };

    ghost coded = { rows_code };

    ghost view = { λ r. rows_of r.rest };
}

impl<'a> Rows<'a> {
    /// The nodes of a walk.
    pub fn new(rest: Cursor<'a>) -> Rows<'a>
        ensures { result ≡ rows_of rest.entry }
    {
        Rows { rest }
    }
}

impl<'a> Iterator for Rows<'a> {
    type Item = Row<'a>;

    ghost next_gives = { YieldsFirstBy (λ row. (row.key, row.item.now)) (λ rest. rest) };

    ghost remaining = { item_count (λ rest. rest) };

    fn next(&mut self) -> Option<Row<'a>> {
        let Some(row) = self.rest.row() else {
            return None;
        };
        self.rest.step();
        Some(row)
    }
}

impl<'a> FusedIterator for Rows<'a> {}
