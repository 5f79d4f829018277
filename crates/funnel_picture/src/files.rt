//! A file as a source. What stands here is the trusted edge: what a file has left is not told.
ghost use Rattle.std.specs.Prelude.{◌≡◌, None};

use edge_io::{Failed, Source};
use std::fs;
use std::io::Read;
use std::rt::Files;

/// A file, which is opened by the first read. While it can't be opened, each read fails.
#[derive(Drop)]
pub struct FileSource<'a, R: Files> {
    rt: R,
    path: &'a str,
    file: Option<R::File>,
    faults: u64,
}

impl<'a, R: Files + Drop> FileSource<'a, R> {
    /// A source that has counted no fault.
    pub fn new(rt: R, path: &'a str) -> FileSource<'a, R>
        ensures fresh { result.faults ≡ 0 }
    {
        FileSource {
            rt,
            path,
            file: None,
            faults: 0,
        }
    }
}

impl<'a, R: Files> Source for FileSource<'a, R> {
    ghost left = { λ _. None };

    ghost faults = { λ s. s.faults };

    fn read(&mut self, into: &mut [u8]) -> Result<usize, Failed> {
        if self.file.is_none() {
            self.file = fs::open(&self.rt, self.path).ok();
        }
        let taken = match &mut self.file {
            Some(file) => file.read(into).ok(),
            None => None,
        };
        match taken {
            Some(count) => Ok(count),
            None => {
                self.faults = self.faults.saturating_add(1);
                Err(Failed)
            }
        }
    }
}
