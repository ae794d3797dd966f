//! `par` and `sel`.

ghost use Rattle.std.specs.Prelude.{◌≡◌, map};
ghost use Rattle.pz_syntax.specs.StatementView.{view};
ghost use Rattle.pz_parser_cursor.specs.devices.Device.{Reads};
ghost use Rattle.pz_parser_cursor.specs.devices.Lists as lists;
ghost use Rattle.pz_parser_statements.specs.devices.Statements as spec;
ghost use Rattle.pz_parser_statements.specs.devices.Statements.{below_stmt};
ghost use Rattle.pz_parser_statements.specs.devices.Nests.{Nests};

use crate::grammar::Grammar;
use pz_parser_cursor::{Cursor, Next, Refusal};
use pz_syntax::pz_items::Items;
use pz_syntax::{Stmt, StmtForm};
use std::alloc::Global;

impl<F: Fn(Global, &mut Cursor<'_>, usize) -> Result<Stmt, Refusal>> Grammar<F> {
    /// A `par` stands next: its branches, `and` between them, up to `rap`.
    #[tactic(auto, unfolding(crate::specs::devices::Statements::parallel))]
    pub fn parallel(&self, cursor: &mut Cursor<'_>) -> Result<Stmt, Refusal>
        requires parts { Nests self.now.depth (F.pre self.now.stmt) (F.post self.now.stmt) }
        ensures reads { Reads view (spec.parallel self.now.depth
            (below_stmt self.now.depth) cursor.old) result cursor.new }
    {
        let pos = cursor.pos();
        let form = StmtForm::Par(self.branched(cursor, Next::And, Next::Rap)?);
        Ok(Stmt { pos, form })
    }

    /// A `sel` stands next: its branches, `or` between them, up to `les`.
    #[tactic(auto, unfolding(crate::specs::devices::Statements::selection))]
    pub fn selection(&self, cursor: &mut Cursor<'_>) -> Result<Stmt, Refusal>
        requires parts { Nests self.now.depth (F.pre self.now.stmt) (F.post self.now.stmt) }
        ensures reads { Reads view (spec.selection self.now.depth
            (below_stmt self.now.depth) cursor.old) result cursor.new }
    {
        let pos = cursor.pos();
        let form = StmtForm::Sel(self.branched(cursor, Next::Or, Next::Les)?);
        Ok(Stmt { pos, form })
    }

    /// One branch or more with this word between them, and the closing word.
    #[tactic(auto, unfolding(crate::specs::devices::Statements::branched))]
    fn branched(
        &self,
        cursor: &mut Cursor<'_>,
        separator: Next,
        close: Next,
    ) -> Result<Items<Items<Stmt>>, Refusal>
        requires parts { Nests self.now.depth (F.pre self.now.stmt) (F.post self.now.stmt) }
        ensures reads { Reads (map (map view)) (spec.branched self.now.depth
            (below_stmt self.now.depth) separator close cursor.old) result cursor.new }
    {
        cursor.deepen(self.depth)?;
        let found = self.branches(cursor, separator)?;
        cursor.expect(close)?;
        Ok(found)
    }

    #[tactic(auto, unfolding(pz_parser_cursor::specs::devices::Lists::list_of))]
    fn branches(
        &self,
        cursor: &mut Cursor<'_>,
        separator: Next,
    ) -> Result<Items<Items<Stmt>>, Refusal>
        requires parts { Nests self.now.depth (F.pre self.now.stmt) (F.post self.now.stmt) }
        ensures reads { Reads (map (map view)) (lists.list_of
            (spec.sequence self.now.depth (below_stmt self.now.depth)) separator cursor.old) result
            cursor.new }
    {
        let mut found = Items::new(self.alloc);
        found.push(self.sequence(cursor)?)?;
        self.more_branches(cursor, separator, found)
    }

    #[tactic(auto, unfolding(pz_parser_cursor::specs::devices::Lists::more_of, pz_parser_cursor::specs::devices::Lists::tail_of))]
    fn more_branches(
        &self,
        cursor: &mut Cursor<'_>,
        separator: Next,
        mut found: Items<Items<Stmt>>,
    ) -> Result<Items<Items<Stmt>>, Refusal>
        requires parts { Nests self.now.depth (F.pre self.now.stmt) (F.post self.now.stmt) }
        ensures reads { Reads (map (map view)) (lists.more_of
            (spec.sequence self.now.depth (below_stmt self.now.depth)) separator
            (map (map view) found) cursor.old) result cursor.new }
    {
        for _turn in 0..cursor.left() {
            if !cursor.eat(separator) {
                return Ok(found);
            }
            found.push(self.sequence(cursor)?)?;
        }
        Ok(found)
    }
}
