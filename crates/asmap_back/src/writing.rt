//! `write_rows` writes the rows as lines to an output, in pieces.

ghost use Rattle.std.specs.Prelude.{◌≡◌, ◌≤◌, ◌++◌, ℕ, List, OnOk, OnErr};
ghost use Rattle.host_io.specs.Faults.{Rose};
ghost use Rattle.host_io.specs.Writing.{Appended, AppendedPart};
ghost use Rattle.asmap_vm.specs.Held.{tree_held};
ghost use Rattle.prefix_table.specs.Print.{row_text, table_text};
ghost use Rattle.prefix_table.specs.declared.print.TheConstants.{ROW_ROOM};
ghost use Rattle.asmap_back.specs.Back.{rows_back};

use crate::back_rows::BackRows;
use arrayvec::ArrayVec;
use asmap_vm::Sane;
use host_io::{Failed, PIECE, Sink, write_all};
use prefix_table::{Row, row_text};

/// Writes the rows that an asmap is turned back into, one a line, in pieces. It takes no memory, so
/// only the sink can fail. A part of the text is then written, and not all.
pub fn write_rows<K: Sink>(code: &Sane<'_>, out: &mut K) -> Result<(), Failed>
    ensures all { OnOk result (Appended (K.written out.old) (K.written out.new)
        (table_text (rows_back (tree_held code.now)))) }
    ensures err { OnErr result (AppendedPart (K.written out.old) (K.written out.new)
        (table_text (rows_back (tree_held code.now)))) }
    ensures cause { OnErr result (Rose (K.faults out.old) (K.faults out.new)) }
    ensures never_falls { K.faults out.old ≤ K.faults out.new }
{
    let mut rows = BackRows::of(code);
    let mut piece = ArrayVec::<u8, PIECE>::new();
    while let Some(row) = rows.next() {
        put_line(row, &mut piece, out)?;
    }
    write_all(out, piece.as_slice())
}

/// Appends the line of a row to a piece, which is written first if it has no room for it. After an
/// error a part of the piece is written.
fn put_line<K: Sink, const N: usize>(
    row: Row,
    piece: &mut ArrayVec<u8, N>,
    out: &mut K,
) -> Result<(), Failed>
    requires { ROW_ROOM ≤ N }
    ensures written { OnOk result ((text : List ℕ)
        × Appended (K.written out.old) (K.written out.new) text
        × (text ++ piece.new.items ≡ piece.old.items ++ row_text row)) }
    ensures err { OnErr result (AppendedPart (K.written out.old) (K.written out.new)
        piece.old.items) }
    ensures cause { OnErr result (Rose (K.faults out.old) (K.faults out.new)) }
    ensures never_falls { K.faults out.old ≤ K.faults out.new }
{
    let line = row_text(row);
    if piece.remaining_capacity() < line.len() {
        write_all(out, piece.as_slice())?;
        piece.clear();
    }
    piece.try_extend_from_slice(line.as_slice()).unwrap();
    Ok(())
}
