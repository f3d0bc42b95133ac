//! Laws of the spelling of lists, pools and rules, each the contract of a function that does nothing.

ghost use Rattle.std.specs.Prelude.{ℕ};
ghost use Rattle.vp_pay.specs.Table.{IsTable};
ghost use Rattle.vp_pay.specs.Written.{SpellingsDiffer};
ghost use Rattle.vp_pay.specs.declared.table.PayTable.{PayTable};
ghost use Rattle.vp_rule.specs.Laws.{ListInputsAreRefused, ListInputsSay, PoolInputsAreRefused, PoolInputsSay};
ghost use Rattle.vp_rule.specs.Laws.{WrittenListsAreRead, WrittenPoolsAreRead};
ghost use Rattle.vp_rule.specs.Spelling.{list_text, pool_text};
ghost use Rattle.vp_rule.specs.Valid.{IsList, IsPool, IsRule};
ghost use Rattle.vp_rule.specs.declared.rule.Rule.{Rule};

/// For one table, different lists have different spellings, and no spelling begins another one.
pub fn list_spellings_differ()
    ensures { (table : PayTable) → IsTable table → SpellingsDiffer (list_text table) (IsList table) }
{}

/// For one table, different pools have different spellings, and no spelling begins another one.
pub fn pool_spellings_differ()
    ensures { (table : PayTable) → IsTable table → SpellingsDiffer (pool_text table) (IsPool table) }
{}

/// A list that was written is read again, whatever follows, and what follows is left.
pub fn written_lists_are_read()
    ensures { WrittenListsAreRead }
{}

/// A pool that was written is read again, whatever follows, and what follows is left.
pub fn written_pools_are_read()
    ensures { WrittenPoolsAreRead }
{}

/// A rule of version 1 is one of version 2.
pub fn rules_are_of_version_2()
    ensures { (version : ℕ) (table : PayTable) (rule : Rule) → IsRule version table rule → IsRule 2 table rule }
{}

/// What an input of a pay table that fits and of a list for it says.
pub fn list_inputs_are_read()
    // It says a table and a list where its lines are their spellings, and nothing else.
    ensures says { ListInputsSay }
    // It is refused at the end of a table that does not fit, else at the first line with which the lines so far begin no
    // table and list, or at the one past the end.
    ensures refused { ListInputsAreRefused }
{}

/// What an input of a pay table that fits and of a pool for it says.
pub fn pool_inputs_are_read()
    // It says a table and a pool where its lines are their spellings, and nothing else.
    ensures says { PoolInputsSay }
    // It is refused at the end of a table that does not fit, else at the first line with which the lines so far begin no
    // table and pool, or at the one past the end.
    ensures refused { PoolInputsAreRefused }
{}
