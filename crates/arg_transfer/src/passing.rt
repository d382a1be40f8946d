//! Passed descriptors out of a table, and what comes with them into one.
ghost use Rattle.std.specs.Prelude.{◌≡◌, ◌+◌, ◌<◌, ◌≤◌, ◌++◌, false, true, length, IfErr, OnErr, OnOk};
ghost use Rattle.std.specs.List.{list_any};
ghost use Rattle.spec_records.specs.Words.{free_rows, has_double_release, insert_rows, is_bad_pass, is_double, is_not_open, new_descriptors, object_passed, objects_passed, release_row, release_rows};

use dk_base::error::Errno;
use dk_base::list::{ObjList, PassList, Room};
use dk_base::number::Fd;
use dk_base::object::{Obj, Pass};
use fd_table::table::FdTable;

fn object_passed(table: &FdTable, passed: Pass) -> Option<Obj>
    ensures { result ≡ object_passed table.now passed }
{
    table.get(passed.fd)
}

fn is_not_open(table: &FdTable, passed: Pass) -> bool
    ensures { result ≡ is_not_open table.now passed }
{
    object_passed(table, passed).is_none()
}

fn has_not_open(table: &FdTable, pass: &[Pass]) -> bool
    ensures { result ≡ list_any (is_not_open table.now) pass.now }
{
    pass.iter().any(|passed| is_not_open(table, *passed))
}

/// Whether they are one number, and either is released.
fn is_double(passed: Pass, other: Pass) -> bool
    ensures { result ≡ is_double passed other }
{
    passed.fd.0 == other.fd.0 && (passed.release || other.release)
}

fn is_double_in(passed: Pass, rest: &[Pass]) -> bool
    ensures { result ≡ list_any (is_double passed) rest.now }
{
    rest.iter().any(|other| is_double(passed, *other))
}

fn has_double_release(pass: &[Pass]) -> bool
    ensures { result ≡ has_double_release pass.now }
{
    for (place, passed) in pass.iter().enumerate() {
        if is_double_in(*passed, &pass[place + 1..]) {
            return true;
        }
    }
    false
}

/// Whether these descriptors can be passed out of a table (door_call(3C), door_return(3C)). EINVAL where one of them names
/// nothing, as any number past the last row, or where one number stands twice and either of the two is released (DOOR_RELEASE).
/// One that stands twice and is not released goes twice. They may be any number of descriptors: a limit of them is its caller's.
pub fn check_pass(table: &FdTable, pass: &PassList) -> Result<(), Errno>
    ensures ok { OnOk result (is_bad_pass table.now pass.now ≡ false) }
    ensures err { IfErr result (λ e. e ≡ Errno.EINVAL) }
    ensures bad { OnErr result (is_bad_pass table.now pass.now ≡ true) }
{
    let pass = pass.slice();
    if has_not_open(table, pass) || has_double_release(pass) {
        return Err(Errno::EINVAL);
    }
    Ok(())
}

/// Lists what they name, in order.
fn list_objects(table: &FdTable, pass: &[Pass], into: &mut Room<Obj>)
    requires { length pass.now ≤ into.old.spare }
    ensures items { into.new.items ≡ into.old.items ++ objects_passed table.now pass.now }
    ensures spare { into.old.spare ≤ into.new.spare + length pass.now }
{
    for passed in pass {
        if let Some(object) = object_passed(table, *passed) {
            into.push(object);
        }
    }
}

/// Closes the descriptor where it is released.
fn release_row(table: &mut FdTable, passed: Pass)
    ensures { table.new ≡ release_row table.old passed }
{
    if passed.release && object_passed(table, passed).is_some() {
        table.close(passed.fd);
    }
}

fn release_each(table: &mut FdTable, pass: &[Pass])
    ensures { table.new ≡ release_rows table.old pass.now }
{
    for passed in pass {
        release_row(table, *passed);
    }
}

/// Closes the descriptors that are released (DOOR_RELEASE, door_call(3C)); the others stay, and so does another descriptor of the
/// same object. A released one that names nothing changes nothing: what is passed is tested by `check_pass` before. It takes no
/// memory.
pub fn release(table: &mut FdTable, pass: &PassList)
    ensures { table.new ≡ release_rows table.old pass.now }
{
    release_each(table, pass.slice());
}

/// What the descriptors name follows what is in `into`, in their order, and those that are released are closed (DOOR_RELEASE,
/// door_call(3C)). One that names nothing adds nothing, so what is passed is tested by `check_pass` before: then each adds its
/// object. It takes no memory.
pub fn take_out(table: &mut FdTable, pass: &PassList, into: &mut Room<Obj>)
    requires { length pass.now ≤ into.old.spare }
    ensures rows { table.new ≡ release_rows table.old pass.now }
    ensures items { into.new.items ≡ into.old.items ++ objects_passed table.old pass.now }
    ensures spare { into.old.spare ≤ into.new.spare + length pass.now }
{
    list_objects(table, pass.slice(), into);
    release(table, pass);
}

/// Each object in turn gets the lowest free descriptor, and their numbers follow what is in `into` (door_call(3C)). EMFILE where
/// fewer descriptors are free than there are objects leaves the table and `into` as they were. It takes no memory.
pub fn install(table: &mut FdTable, objects: &ObjList, into: &mut Room<Fd>) -> Result<(), Errno>
    requires { length objects.now ≤ into.old.spare }
    ensures ok { OnOk result (length objects.now ≤ free_rows table.old) }
    ensures rows { OnOk result (table.new ≡ insert_rows table.old objects.now) }
    ensures fds { OnOk result (into.new.items ≡ into.old.items ++ new_descriptors table.old objects.now) }
    ensures spare { into.old.spare ≤ into.new.spare + length objects.now }
    ensures err { IfErr result (λ e. e ≡ Errno.EMFILE) }
    ensures full { OnErr result (free_rows table.old < length objects.now) }
    ensures kept { OnErr result (table.new ≡ table.old) }
    ensures same { OnErr result (into.new ≡ into.old) }
{
    table.insert_all(objects, into)
}

/// The same, of a table with a free descriptor for each of the objects.
pub fn install_fitting(table: &mut FdTable, objects: &ObjList, into: &mut Room<Fd>)
    requires spare { length objects.now ≤ into.old.spare }
    requires free { length objects.now ≤ free_rows table.old }
    ensures rows { table.new ≡ insert_rows table.old objects.now }
    ensures fds { into.new.items ≡ into.old.items ++ new_descriptors table.old objects.now }
    ensures spare { into.old.spare ≤ into.new.spare + length objects.now }
{
    table.insert_each(objects.slice(), into);
}
