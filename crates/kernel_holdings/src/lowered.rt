//! References that go: of a table that is closed, of descriptors that are released, and of results that are collected.
ghost use Rattle.std.specs.Prelude.{◌≡◌, ◌+◌, ◌-◌, ◌≤◌, Some, filter, length};
ghost use Rattle.std.specs.Option.{option_to_list};
ghost use Rattle.dk_base.specs.declared.object.Obj.{Obj};
ghost use Rattle.spec_records.specs.declared.record.Call.{Call};
ghost use Rattle.spec_records.specs.Words.{count_object, object_named, objects_of, objects_passed, table_in};
ghost use Rattle.spec_kernel.specs.Words.{objects_collected_in};
ghost use Rattle.call_tree.specs.Words.{outcome_in};
ghost use Rattle.unref_notice.specs.Words.{count_of};
ghost use Rattle.kernel_holdings.specs.Words.{is_released, results_in};

use crate::tables::Tables;
use call_tree::parts::Outcome;
use dk_base::list::PassList;
use dk_base::number::{Fd, Pid};
use unref_notice::counts::Counts;

/// How many objects come with a call's results.
pub fn count_results(outcome: &Outcome) -> usize
    ensures { result ≡ length (results_in outcome.now) }
{
    match outcome {
        Outcome::Results { objects, .. } => objects.len(),
        Outcome::Ended(_) => 0,
    }
}

/// One reference fewer to each object of a call's results.
pub fn lower_results(counts: &mut Counts, outcome: &Outcome)
    requires left { length (results_in outcome.now) ≤ counts.old.left }
    ensures counts { (o : Obj) (call : Call) → outcome_in (Some call) ≡ Some outcome.now → count_of counts.new.counts o ≡ count_of counts.old.counts o - count_object o (objects_collected_in (Some call)) }
    ensures opening { counts.new.opening ≡ counts.old.opening }
    ensures left { counts.old.left ≤ counts.new.left + length (results_in outcome.now) }
{
    if let Outcome::Results { objects, .. } = outcome {
        counts.down_all(objects.slice());
    }
}

/// One reference fewer to what a descriptor names, if it names anything.
fn lower_row(counts: &mut Counts, tables: &Tables, p: Pid, fd: Fd)
    requires left { length (option_to_list (object_named (table_in tables.now p.0) fd)) ≤ counts.old.left }
    ensures counts { (o : Obj) → count_of counts.new.counts o ≡ count_of counts.old.counts o - count_object o (option_to_list (object_named (table_in tables.now p.0) fd)) }
    ensures opening { counts.new.opening ≡ counts.old.opening }
    ensures left { counts.old.left ≤ counts.new.left + length (option_to_list (object_named (table_in tables.now p.0) fd)) }
{
    if let Some(object) = tables.object_at(p, fd) {
        counts.down(object);
    }
}

/// One reference fewer to what each descriptor of a process names.
pub fn lower_table(counts: &mut Counts, tables: &Tables, p: Pid)
    requires left { length (table_in tables.now p.0) ≤ counts.old.left }
    ensures counts { (o : Obj) → count_of counts.new.counts o ≡ count_of counts.old.counts o - count_object o (objects_of (table_in tables.now p.0)) }
    ensures opening { counts.new.opening ≡ counts.old.opening }
    ensures left { counts.old.left ≤ counts.new.left + length (table_in tables.now p.0) }
{
    for fd in 0..tables.row_count(p) {
        lower_row(counts, tables, p, Fd(fd));
    }
}

/// One reference fewer to what each of these descriptors of a process names that is released.
pub fn lower_released(counts: &mut Counts, tables: &Tables, p: Pid, pass: &PassList)
    requires left { length (objects_passed (table_in tables.now p.0) (filter is_released pass.now)) ≤ counts.old.left }
    ensures counts { (o : Obj) → count_of counts.new.counts o ≡ count_of counts.old.counts o - count_object o (objects_passed (table_in tables.now p.0) (filter is_released pass.now)) }
    ensures opening { counts.new.opening ≡ counts.old.opening }
    ensures left { counts.old.left ≤ counts.new.left + length (objects_passed (table_in tables.now p.0) (filter is_released pass.now)) }
{
    for passed in pass.slice() {
        if passed.release {
            lower_row(counts, tables, p, passed.fd);
        }
    }
}
