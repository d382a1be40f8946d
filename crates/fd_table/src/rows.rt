//! The rows of a table, one for each descriptor.
ghost use Rattle.std.specs.Prelude.{◌≡◌, ◌+◌, ◌≤◌, ◌++◌, length};
ghost use Rattle.spec_records.specs.Words.{close_table, lowest_free, objects_of};
ghost use Rattle.fd_table.specs.Rows.{ROWS_MAX, lowest_row};

use dk_base::list::Room;
use dk_base::object::Obj;

fn first_free(rows: &[Option<Obj>]) -> Option<usize>
    ensures { result ≡ lowest_free rows.now }
{
    rows.iter().position(|row| row.is_none())
}

/// The lowest free row, or the number of rows where none is free. Each row below `from` is known to be taken.
pub fn lowest_from(rows: &[Option<Obj>], from: u32) -> u32
    requires taken { from ≤ lowest_row rows.now }
    requires few { length rows.now ≤ ROWS_MAX }
    ensures { result ≡ lowest_row rows.now }
{
    match first_free(&rows[from as usize..]) {
        Some(ahead) => from + ahead as u32,
        None => rows.len() as u32,
    }
}

pub fn close_rows(rows: &mut [Option<Obj>])
    ensures { rows.new ≡ close_table rows.old }
{
    for row in rows.iter_mut() {
        *row = None;
    }
}

/// Lists what is named, in order of descriptor.
pub fn list_objects(rows: &[Option<Obj>], into: &mut Room<Obj>)
    requires { length rows.now ≤ into.old.spare }
    ensures items { into.new.items ≡ into.old.items ++ objects_of rows.now }
    ensures spare { into.old.spare ≤ into.new.spare + length rows.now }
{
    for row in rows {
        if let Some(object) = row {
            into.push(*object);
        }
    }
}
