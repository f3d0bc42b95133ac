//! The built-in pay tables, one after another.

ghost use Rattle.std.specs.Prelude.{◌++◌};
ghost use Rattle.vp_run.specs.Answer.{built_in_text};
ghost use Rattle.vp_io.specs.Puts.{Puts};

use vp_io::{Sink, WriteFault, put};
use vp_pay::PayTable;

/// Puts the four built-in tables.
pub(crate) fn put_tables<K: Sink>(sink: &mut K) -> Result<(), WriteFault>
    ensures { Puts (K.told sink.old) (K.told sink.new) result
        (built_in_text 0 ++ (built_in_text 1 ++ (built_in_text 2 ++ built_in_text 3))) }
{
    put_built_in(0, sink)?;
    put_built_in(1, sink)?;
    put_built_in(2, sink)?;
    put_built_in(3, sink)
}

/// Puts a built-in table; nothing where there is none of that number.
fn put_built_in<K: Sink>(i: u8, sink: &mut K) -> Result<(), WriteFault>
    ensures { Puts (K.told sink.old) (K.told sink.new) result (built_in_text i) }
{
    match PayTable::built_in(i) {
        Some(table) => table.write(sink),
        None => put(sink, b""),
    }
}
