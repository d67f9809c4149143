//! Queries, and what is wanted.

ghost use Rattle.syntax.specs.Reading as rd;
ghost use Rattle.syntax.specs.Readers as reader;
ghost use Rattle.condition_parser.specs.Inside.{inside};
ghost use Rattle.condition_parser.specs.Nests.{Nests};
ghost use Rattle.leaf_parser.specs.Reads.{Reads};

use crate::levels::Level;
use leaf_parser::{
    Cursor, Stop, drop_and_stop, parse_correlation_name, parse_group_by, parse_name,
};
use sqlite_items::Boxed;
use std::alloc::Global;
use syntax::{Condition, PartInParentheses, Query, SelectList, Want};
use token::Kind;
use value::Text;

impl<F: Fn(Global, &mut Cursor<'_>, usize, Want) -> Result<PartInParentheses, Stop>> Level<F> {
    /// `"*" | expr`
    #[tactic(auto, unfolding(syntax::specs::Readers::selected))]
    pub fn parse_selected(&self, cursor: &mut Cursor<'_>) -> Result<SelectList, Stop>
        requires { Nests self.now.depth (F.pre self.now.inner) (F.post self.now.inner) }
        ensures { Reads (reader.selected self.now.depth (inside self.now.depth) cursor.old) result cursor.new }
    {
        match cursor.peek() {
            Kind::Star => {
                cursor.take(Kind::Star);
                Ok(SelectList::Star)
            }
            _ => Ok(SelectList::One(self.parse_expression(cursor)?)),
        }
    }

    /// `[WHERE cond]`
    #[tactic(auto, unfolding(syntax::specs::Readers::where_clause))]
    pub fn parse_where(&self, cursor: &mut Cursor<'_>) -> Result<Option<Condition>, Stop>
        requires { Nests self.now.depth (F.pre self.now.inner) (F.post self.now.inner) }
        ensures { Reads (reader.where_clause self.now.depth (inside self.now.depth) cursor.old) result cursor.new }
    {
        if !cursor.is(Kind::Where) {
            return Ok(None);
        }
        cursor.expect(Kind::Where)?;
        Ok(Some(self.parse_condition(cursor)?.into_inner()))
    }

    /// `[HAVING cond]`
    #[tactic(auto, unfolding(syntax::specs::Readers::having))]
    pub fn parse_having(&self, cursor: &mut Cursor<'_>) -> Result<Option<Condition>, Stop>
        requires { Nests self.now.depth (F.pre self.now.inner) (F.post self.now.inner) }
        ensures { Reads (reader.having self.now.depth (inside self.now.depth) cursor.old) result cursor.new }
    {
        if !cursor.is(Kind::Having) {
            return Ok(None);
        }
        cursor.expect(Kind::Having)?;
        Ok(Some(self.parse_condition(cursor)?.into_inner()))
    }

    /// What follows the table of a query and its correlation_name.
    #[tactic(auto, unfolding(syntax::specs::Readers::query_rest))]
    pub fn parse_query_rest(
        &self,
        cursor: &mut Cursor<'_>,
        select_list: SelectList,
        table: Text,
        correlation_name: Option<Text>,
    ) -> Result<Boxed<Query>, Stop>
        requires { Nests self.now.depth (F.pre self.now.inner) (F.post self.now.inner) }
        ensures { Reads
            (reader.query_rest self.now.depth (inside self.now.depth) select_list table correlation_name cursor.old)
            result cursor.new }
    {
        let keeps = match self.parse_where(cursor) {
            Ok(keeps) => keeps,
            Err(stop) => return Err(drop_and_stop(stop, (select_list, table, correlation_name))),
        };
        let group = match parse_group_by(self.alloc, cursor) {
            Ok(group) => group,
            Err(stop) => return Err(drop_and_stop(
                stop,
                (select_list, table, correlation_name, keeps),
            )),
        };
        let having = match self.parse_having(cursor) {
            Ok(having) => having,
            Err(stop) => return Err(drop_and_stop(
                stop,
                (select_list, table, correlation_name, keeps, group),
            )),
        };
        let query = Query {
            select_list,
            table,
            correlation_name,
            keeps,
            group,
            having,
        };
        Ok(Boxed::new(self.alloc, query)?)
    }

    /// What follows FROM.
    #[tactic(auto, unfolding(syntax::specs::Readers::query_from))]
    pub fn parse_query_from(
        &self,
        cursor: &mut Cursor<'_>,
        select_list: SelectList,
    ) -> Result<Boxed<Query>, Stop>
        requires { Nests self.now.depth (F.pre self.now.inner) (F.post self.now.inner) }
        ensures { Reads (reader.query_from self.now.depth (inside self.now.depth) select_list cursor.old) result
            cursor.new }
    {
        let table = match parse_name(self.alloc, cursor) {
            Ok(table) => table,
            Err(stop) => return Err(drop_and_stop(stop, select_list)),
        };
        match parse_correlation_name(self.alloc, cursor) {
            Ok(correlation_name) => self.parse_query_rest(
                cursor,
                select_list,
                table,
                correlation_name,
            ),
            Err(stop) => Err(drop_and_stop(stop, (select_list, table))),
        }
    }

    /// `SELECT ("*" | expr) FROM name [ [AS] name ] [WHERE cond] [GROUP BY colref] [HAVING cond]`
    #[tactic(auto, unfolding(syntax::specs::Readers::query))]
    pub fn parse_query(&self, cursor: &mut Cursor<'_>) -> Result<Boxed<Query>, Stop>
        requires { Nests self.now.depth (F.pre self.now.inner) (F.post self.now.inner) }
        ensures { Reads (reader.query self.now.depth (inside self.now.depth) cursor.old) result cursor.new }
    {
        cursor.expect(Kind::Select)?;
        let select_list = self.parse_selected(cursor)?;
        match cursor.expect(Kind::From) {
            Ok(_) => self.parse_query_from(cursor, select_list),
            Err(stop) => Err(drop_and_stop(stop, select_list)),
        }
    }

    /// A condition or an expression that begins with no NOT and no SELECT.
    pub fn parse_first_from(&self, cursor: &mut Cursor<'_>) -> Result<PartInParentheses, Stop>
        requires { Nests self.now.depth (F.pre self.now.inner) (F.post self.now.inner) }
        ensures { Reads
            (rd.◌>>=◌ (reader.first self.now.depth (inside self.now.depth))
            (reader.any_from self.now.depth (inside self.now.depth)) cursor.old) result cursor.new }
    {
        match self.parse_first(cursor)? {
            PartInParentheses::Condition(x) => self.parse_rest_of_condition(cursor, x),
            PartInParentheses::Expression(x) => {
                let left = self.parse_expression_after(cursor, x)?;
                self.parse_any_after(cursor, left)
            }
            PartInParentheses::Query(x) => Err(drop_and_stop(Stop::Syntax, x)),
        }
    }

    /// A condition, an expression or a query.
    #[tactic(auto, unfolding(syntax::specs::Readers::any))]
    pub fn parse_any(&self, cursor: &mut Cursor<'_>) -> Result<PartInParentheses, Stop>
        requires { Nests self.now.depth (F.pre self.now.inner) (F.post self.now.inner) }
        ensures { Reads (reader.any self.now.depth (inside self.now.depth) cursor.old) result cursor.new }
    {
        match cursor.peek() {
            Kind::Not => Ok(PartInParentheses::Condition(self.parse_condition(cursor)?)),
            Kind::Select => Ok(PartInParentheses::Query(self.parse_query(cursor)?)),
            _ => self.parse_first_from(cursor),
        }
    }

    /// An expression or a query.
    #[tactic(auto, unfolding(syntax::specs::Readers::operand))]
    pub fn parse_operand(&self, cursor: &mut Cursor<'_>) -> Result<PartInParentheses, Stop>
        requires { Nests self.now.depth (F.pre self.now.inner) (F.post self.now.inner) }
        ensures { Reads (reader.operand self.now.depth (inside self.now.depth) cursor.old) result cursor.new }
    {
        match cursor.peek() {
            Kind::Select => Ok(PartInParentheses::Query(self.parse_query(cursor)?)),
            _ => Ok(PartInParentheses::Expression(self.parse_expression(cursor)?)),
        }
    }

    pub fn parse_wanted(
        &self,
        cursor: &mut Cursor<'_>,
        wanted: Want,
    ) -> Result<PartInParentheses, Stop>
        requires { Nests self.now.depth (F.pre self.now.inner) (F.post self.now.inner) }
        ensures { Reads (reader.level self.now.depth (inside self.now.depth) wanted cursor.old) result cursor.new }
    {
        match wanted {
            Want::Condition => Ok(PartInParentheses::Condition(self.parse_condition(cursor)?)),
            Want::Expression => Ok(PartInParentheses::Expression(self.parse_expression(cursor)?)),
            Want::Query => Ok(PartInParentheses::Query(self.parse_query(cursor)?)),
            Want::Operand => self.parse_operand(cursor),
            Want::Any => self.parse_any(cursor),
        }
    }
}
