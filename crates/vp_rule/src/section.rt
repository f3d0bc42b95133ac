//! Lists and pools as the section behind a pay table.

use crate::{List, Pool};
use vp_pay::{PayTable, Section};
use vp_text::{Lines, Refused};

/// A list for the table.
impl<'a> Section<'a> for List<'a> {
    ghost use Rattle.vp_rule.specs.Reading.{list_at};
    ghost use Rattle.vp_rule.specs.Valid.{IsList};

    ghost reader = { list_at };

    ghost Is = { IsList };

    fn read(lines: &mut Lines<'a>, table: &PayTable) -> Result<List<'a>, Refused> {
        List::read(lines, table)
    }
}

/// A pool for the table.
impl<'a> Section<'a> for Pool {
    ghost use Rattle.vp_rule.specs.Reading.{pool_at};
    ghost use Rattle.vp_rule.specs.Valid.{IsPool};

    ghost reader = { pool_at };

    ghost Is = { IsPool };

    fn read(lines: &mut Lines<'a>, table: &PayTable) -> Result<Pool, Refused> {
        Pool::read(lines, table)
    }
}
