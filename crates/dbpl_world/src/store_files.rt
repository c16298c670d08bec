// The two files of the mounted store. A part whose file is absent is empty, and only a write makes files. While the log
// is open no other process mounts the store.
ghost use Rattle.std.specs.Prelude.{◌≡◌, ◌+◌, ◌^◌, ◌<◌, ◌≤◌, IfOk, OnOk, length};

use crate::file_calls::{read_whole, size_of, write_whole};
use crate::store_paths::StorePaths;
use crate::{Failed, Part};
use std::fs;
use std::fs::File;
use std::io::ErrorKind;
use std::os::unix::fs::MetadataExt;
use std::rt::Files;

#[derive(Drop)]
pub struct StoreFiles {
    pub name: Vec<u8>,
    paths: StorePaths,
    log: Option<File>,
    pages: Option<File>,

    // The files that this process has made, until a sync has made sure of them.
    new_log: bool,
    new_pages: bool,

    // A sync has failed, or new files were removed. What the system says of a later sync is worth nothing.
    is_unsure: bool,
}

impl StoreFiles {
    /// Opens what is there, and makes nothing.
    pub fn open<R: Files<File = File>>(
        rt: &R,
        name: Vec<u8>,
        paths: StorePaths,
        is_unsure: bool,
    ) -> Result<StoreFiles, Failed>
        ensures { IfOk result (λ store. store.name ≡ name) }
    {
        let log = opened(rt, paths.log.as_str())?;
        if let Some(file) = &log {
            lock(file)?;
            check_place(rt, file, paths.log.as_str())?;
        }
        let pages = opened(rt, paths.pages.as_str())?;
        Ok(StoreFiles {
            name,
            paths,
            log,
            pages,
            new_log: false,
            new_pages: false,
            is_unsure,
        })
    }

    pub fn is_unsure(&self) -> bool {
        self.is_unsure
    }

    fn file(&self, part: Part) -> Option<&File> {
        match part {
            Part::Log => self.log.as_ref(),
            Part::Pages => self.pages.as_ref(),
        }
    }

    pub fn size(&self, part: Part) -> Result<u64, Failed>
        ensures { IfOk result (λ size. size < 2 ^ 63) }
    {
        match self.file(part) {
            Some(file) => size_of(file),
            None => Ok(0),
        }
    }

    pub fn read(&self, part: Part, at: u64, into: &mut [u8]) -> Result<usize, Failed>
        ensures { IfOk result (λ count. count ≤ length into.old) }
    {
        match self.file(part) {
            Some(file) => read_whole(file, at, into),
            None => Ok(0),
        }
    }

    /// Writes all the bytes, with zeros in a gap. The first write makes the files that are absent.
    pub fn write<R: Files<File = File>>(
        &mut self,
        rt: &R,
        part: Part,
        at: u64,
        bytes: &[u8],
    ) -> Result<(), Failed>
        ensures end { OnOk result (at + length bytes.now < 2 ^ 63) }
        ensures name { self.new.name ≡ self.old.name }
    {
        let written = self.write_once(rt, part, at, bytes);
        if written.is_err() {
            self.remove_new(rt);
        }
        written
    }

    fn write_once<R: Files<File = File>>(
        &mut self,
        rt: &R,
        part: Part,
        at: u64,
        bytes: &[u8],
    ) -> Result<(), Failed>
        ensures end { OnOk result (at + length bytes.now < 2 ^ 63) }
        ensures name { self.new.name ≡ self.old.name }
    {
        if self.log.is_none() {
            self.make_log(rt)?;
        }
        if self.pages.is_none() {
            self.make_pages(rt)?;
        }
        match self.file(part) {
            Some(file) => write_whole(file, at, bytes),
            None => Err(Failed),
        }
    }

    /// Makes the log, which must still be absent, and looks whether the pages are still as they were found: that was
    /// without a lock.
    fn make_log<R: Files<File = File>>(&mut self, rt: &R) -> Result<(), Failed>
        ensures { self.new.name ≡ self.old.name }
    {
        let log = made(rt, self.paths.log.as_str())?;
        lock(&log)?;
        self.log = Some(log);
        self.new_log = true;
        match &self.pages {
            Some(pages) => check_place(rt, pages, self.paths.pages.as_str()),
            None => Ok(()),
        }
    }

    fn make_pages<R: Files<File = File>>(&mut self, rt: &R) -> Result<(), Failed>
        ensures { self.new.name ≡ self.old.name }
    {
        self.pages = Some(made(rt, self.paths.pages.as_str())?);
        self.new_pages = true;
        Ok(())
    }

    /// Removes new files where it can, the log last, whose lock keeps others out. They stay open, so a read gives what it
    /// gave.
    fn remove_new<R: Files<File = File>>(&mut self, rt: &R)
        ensures { self.new.name ≡ self.old.name }
    {
        if self.new_pages {
            let _ = fs::remove_file(rt, self.paths.pages.as_str());
        }
        if self.new_log {
            let _ = fs::remove_file(rt, self.paths.log.as_str());
        }
        self.is_unsure |= self.new_log || self.new_pages;
        self.new_log = false;
        self.new_pages = false;
    }

    /// Syncs the part, and before that the folder where a file in it is new. After one that failed all others do.
    pub fn sync<R: Files<File = File>>(&mut self, rt: &R, part: Part) -> Result<(), Failed>
        ensures { self.new.name ≡ self.old.name }
    {
        let synced = self.sync_once(rt, part);
        if synced.is_err() {
            self.is_unsure = true;
            self.remove_new(rt);
        }
        synced
    }

    fn sync_once<R: Files<File = File>>(&mut self, rt: &R, part: Part) -> Result<(), Failed>
        ensures { self.new.name ≡ self.old.name }
    {
        if self.is_unsure {
            return Err(Failed);
        }
        let Some(file) = self.file(part) else {
            return Ok(());
        };
        if self.new_log || self.new_pages {
            sync_folder(rt, self.paths.folder.as_str())?;
        }
        file.sync_all().map_err(|_| Failed)?;
        self.new_log = false;
        self.new_pages = false;
        Ok(())
    }
}

/// The file at this path, or nothing where none is.
fn opened<R: Files<File = File>>(rt: &R, path: &str) -> Result<Option<File>, Failed> {
    let mut how = File::options();
    how.read(true).write(true);
    match how.open(rt, path) {
        Ok(file) => Ok(Some(file)),
        Err(error) if error.kind() == ErrorKind::NotFound => Ok(None),
        Err(_) => Err(Failed),
    }
}

/// A new file at this path, where none may be.
fn made<R: Files<File = File>>(rt: &R, path: &str) -> Result<File, Failed> {
    File::create_new(rt, path).map_err(|_| Failed)
}

/// Locks the file for this process, unless another one has it.
fn lock(file: &File) -> Result<(), Failed> {
    file.try_lock().map_err(|_| Failed)
}

/// Whether the path still leads to this file. It may have been removed after it was opened and before the lock.
fn check_place<R: Files<File = File>>(rt: &R, file: &File, path: &str) -> Result<(), Failed> {
    match (file.metadata(), fs::metadata(rt, path)) {
        (Ok(opened), Ok(found)) if (opened.dev(), opened.ino()) == (found.dev(), found.ino()) => {
            Ok(())
        }
        _ => Err(Failed),
    }
}

fn sync_folder<R: Files<File = File>>(rt: &R, path: &str) -> Result<(), Failed> {
    let folder = File::open(rt, path).map_err(|_| Failed)?;
    folder.sync_all().map_err(|_| Failed)
}
