//! What a run hands back beside its text.
ghost use Rattle.std.specs.Prelude.{◌≡◌, IfOk};
ghost use Rattle.tool_run.specs.Handed.{handed, nothing, one_book, one_bucket, one_queue, replayed};

use fn_table::Book;
use quota_bucket::BucketBook;
use quota_pool::Moved;
use relay_run::QueueBook;
use std::alloc::{AllocError, Global};

/// What a run hands back beside its text.
#[derive(Drop)]
pub struct Handed {
    /// the answers of a replay
    pub answers: Vec<Moved>,
    /// the books of a replay, or the one book of a trial, of calls in turns or of a tally
    pub books: Vec<Book>,
    /// the book of a relay's queue
    pub queue: Option<QueueBook<u64>>,
    /// the book of a bucket through which lines of takes went
    pub bucket: Option<BucketBook>,
}

impl Handed {
    pub fn nothing(alloc: Global) -> Handed
        ensures { handed result ≡ nothing }
    {
        Handed {
            answers: Vec::new(alloc),
            books: Vec::new(alloc),
            queue: None,
            bucket: None,
        }
    }

    pub fn replayed(answers: Vec<Moved>, books: Vec<Book>) -> Handed
        ensures { handed result ≡ replayed answers.items books.items }
    {
        Handed {
            answers,
            books,
            queue: None,
            bucket: None,
        }
    }

    pub fn book(alloc: Global, book: Book) -> Result<Handed, AllocError>
        ensures { IfOk result (λ h. handed h ≡ one_book book) }
    {
        let mut all = Handed::nothing(alloc);
        all.books.push(book)?;
        Ok(all)
    }

    pub fn queue(alloc: Global, book: QueueBook<u64>) -> Handed
        ensures { handed result ≡ one_queue book }
    {
        let mut all = Handed::nothing(alloc);
        all.queue = Some(book);
        all
    }

    pub fn bucket(alloc: Global, book: BucketBook) -> Handed
        ensures { handed result ≡ one_bucket book }
    {
        let mut all = Handed::nothing(alloc);
        all.bucket = Some(book);
        all
    }
}
