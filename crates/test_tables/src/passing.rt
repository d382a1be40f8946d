//! Descriptors that are passed.
use crate::descriptors::is_so_of_rows;
use arg_transfer::passing::{check_pass, release, take_out};
use dk_base::error::Errno;
use dk_base::list::{ObjList, PassList, Room};
use dk_base::number::Fd;
use dk_base::object::{Obj, Pass};
use fd_table::table::FdTable;
use std::alloc::Global;

/// The rows of a table of four.
type Rows = [Option<Obj>; 4];

const DOOR: Obj = Obj::Door(1);

const PORT: Obj = Obj::Port(1);

/// A door at two numbers.
const FIRST: Rows = [Some(DOOR), Some(PORT), Some(DOOR), None];

const LATER: Rows = [None, Some(PORT), Some(DOOR), None];

const NONE: Rows = [None, None, None, None];

const ZERO: Pass = Pass {
    fd: Fd(0),
    release: false,
};

const ZERO_RELEASED: Pass = Pass {
    fd: Fd(0),
    release: true,
};

const ONE: Pass = Pass {
    fd: Fd(1),
    release: false,
};

const ONE_RELEASED: Pass = Pass {
    fd: Fd(1),
    release: true,
};

const TWO: Pass = Pass {
    fd: Fd(2),
    release: false,
};

const TWO_RELEASED: Pass = Pass {
    fd: Fd(2),
    release: true,
};

const THREE: Pass = Pass {
    fd: Fd(3),
    release: false,
};

const FOUR: Pass = Pass {
    fd: Fd(4),
    release: false,
};

/// What is passed, the objects that go or none for EINVAL, and the rows that stay.
type Transfer = (&'static [Pass], Option<&'static [Obj]>, Rows);

/// One after the other, of one table.
static TRANSFERS: [Transfer; 13] = [
    (&[ZERO, THREE], None, FIRST),
    (&[ZERO_RELEASED, FOUR], None, FIRST),
    (&[ZERO, ZERO_RELEASED], None, FIRST),
    (&[ZERO_RELEASED, ZERO], None, FIRST),
    (&[ZERO_RELEASED, ONE, ZERO_RELEASED], None, FIRST),
    (&[ZERO, ZERO], Some(&[DOOR, DOOR]), FIRST),
    (&[ONE, ZERO], Some(&[PORT, DOOR]), FIRST),
    (&[ONE; 16], Some(&[PORT; 16]), FIRST),
    (&[], Some(&[]), FIRST),
    (&[ZERO_RELEASED, TWO], Some(&[DOOR, DOOR]), LATER),
    (&[ZERO_RELEASED], None, LATER),
    (&[TWO_RELEASED, ONE_RELEASED], Some(&[DOOR, PORT]), NONE),
    (&[ONE], None, NONE),
];

fn has_rows(table: &FdTable, rows: &Rows) -> bool {
    for number in 0..4 {
        if table.get(Fd(number)) != rows[number as usize] {
            return false;
        }
    }
    true
}

fn gives_first(table: &mut FdTable) -> bool {
    table.insert(DOOR) == Ok(Fd(0))
        && table.insert(PORT) == Ok(Fd(1))
        && table.dup(Fd(0)) == Ok(Fd(2))
}

/// Whether all of them go or none.
fn goes(
    table: &mut FdTable,
    pass: &PassList,
    into: &mut Room<Obj>,
    objects: Option<&[Obj]>,
) -> bool {
    into.clear();
    if into.reserve(pass.len()).is_err() {
        return false;
    }
    match objects {
        Some(expected) => {
            if check_pass(table, pass).is_err() {
                return false;
            }
            take_out(table, pass, into);
            into.slice() == expected
        }
        None => check_pass(table, pass) == Err(Errno::EINVAL),
    }
}

fn one_goes(
    alloc: Global,
    table: &mut FdTable,
    into: &mut Room<Obj>,
    (pass, objects, rows): &Transfer,
) -> bool {
    matches!(PassList::from_slice(alloc, pass), Ok(pass) if goes(table, &pass, into, *objects) && has_rows(table, rows))
}

fn all_go(alloc: Global, table: &mut FdTable, into: &mut Room<Obj>) -> bool {
    for transfer in &TRANSFERS {
        if !one_goes(alloc, table, into, transfer) {
            return false;
        }
    }
    true
}

/// Whether all transfers go as they are written.
fn go_as_written(alloc: Global, table: &mut FdTable) -> bool {
    match Room::with_room(alloc, 16) {
        Ok(mut into) => gives_first(table) && all_go(alloc, table, &mut into),
        Err(_) => false,
    }
}

#[test]
fn all_that_is_passed_goes_or_none(rt: HostRuntime) {
    assert!(rt; is_so_of_rows(rt.alloc(), 4, go_as_written));
}

/// Whether the objects are refused with nothing changed where one row is free, and get numbers where two are.
fn installs(table: &mut FdTable, objects: &ObjList, fds: &mut Room<Fd>, pass: &PassList) -> bool {
    if fds.reserve(objects.len()).is_err()
        || table.insert_all(objects, fds) != Err(Errno::EMFILE)
        || !has_rows(table, &FIRST)
        || fds.len() != 0
    {
        return false;
    }
    release(table, pass);
    table.insert_all(objects, fds) == Ok(())
        && has_rows(table, &[Some(PORT), Some(PORT), Some(DOOR), Some(DOOR)])
        && fds.slice() == [Fd(0), Fd(3)].as_slice()
}

/// Whether two objects are installed once two rows are free.
fn is_installed(alloc: Global, table: &mut FdTable) -> bool {
    let Ok(objects) = ObjList::from_slice(alloc, &[PORT, DOOR]) else {
        return false;
    };
    let Ok(pass) = PassList::from_slice(alloc, &[ZERO_RELEASED, ONE]) else {
        return false;
    };
    let Ok(mut fds) = Room::with_room(alloc, 2) else {
        return false;
    };
    gives_first(table) && installs(table, &objects, &mut fds, &pass)
}

#[test]
fn what_was_passed_is_installed(rt: HostRuntime) {
    assert!(rt; is_so_of_rows(rt.alloc(), 4, is_installed));
}
