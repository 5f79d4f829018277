//! The marks of a tenant, and the columns that they make.
ghost use Rattle.std.specs.Prelude.{◌≡◌, ◌≤◌, IfOk, map};
ghost use Rattle.picture_marks.specs.Laws.{ColumnsAreFew, ColumnsHaveMarks, ColumnsJoin, RunsAreShort};
ghost use Rattle.picture_marks.specs.Marks.{columns_of, run_length};

use std::alloc::{AllocError, Global};

/// A row of a tenant: its worker, the number of its record, the number that it met, and the one
/// that it left.
#[derive(Clone, Copy, Debug, PartialEq, Eq)]
pub struct Mark {
    pub worker: u32,
    pub at: u64,
    pub before: u64,
    pub after: u64,
}

/// A tenant's opening, what was added to it and taken from it, and its last value.
#[derive(Clone, Copy, Debug, PartialEq, Eq)]
pub struct Heading {
    pub opening: u64,
    pub added: u128,
    pub taken: u128,
    pub last: u64,
}

/// The columns of some marks: runs of one length, of which the last may be shorter.
pub fn columns<'a>(
    alloc: Global,
    marks: &'a [Mark],
    most: usize,
) -> Result<Vec<&'a [Mark]>, AllocError>
    requires { 1 ≤ most }
    ensures { IfOk result (λ columns. map (λ column. column.now) columns.items ≡ columns_of most marks.now) }
{
    marks.chunks(run_length(most, marks.len())).collect(alloc)
}

/// How many marks each column has, where there are so many and at most `most` columns.
pub fn run_length(most: usize, count: usize) -> usize
    requires { 1 ≤ most }
    ensures { result ≡ run_length most count }
{
    count.div_ceil(most).max(1)
}

/// The columns are the marks in their order, each has a mark, there are at most so many, and none
/// has more marks than that takes.
pub fn columns_laws()
    ensures joined { ColumnsJoin }
    ensures have_marks { ColumnsHaveMarks }
    ensures few { ColumnsAreFew }
    ensures short { RunsAreShort }
{}
