//! Two files, of which each call asks one.
ghost use Rattle.std.specs.Prelude.{◌≡◌, ◌∷◌, ◌++◌, [], None, IfOk, IfSome};
ghost use Rattle.file_disk.specs.Filed.{Asks, file_of};
ghost use Rattle.file_disk.specs.OneFile.{Measures, Fills, Puts, Syncs};

use crate::DiskFile;
use disk_model::FileId;
use http_server::Log;
use std::io;
use std::marker::Model;

/// Two files, and, for proofs alone, both as they were before each call.
#[derive(Drop)]
pub(crate) struct TwoFiles<F: Drop> {
    a: F,
    b: F,
    past: Log<F, F>,
}

impl<F: Drop> Model for TwoFiles<F> {
    ghost use Rattle.file_disk.specs.Filed.{TwoFiles as View};

    ghost Value = { View F };

    ghost view = { λ files. record { a = files.a; b = files.b; past = files.past.items } };
}

impl<F: DiskFile + Drop> TwoFiles<F> {
    /// These two.
    pub(crate) fn of(a: F, b: F) -> TwoFiles<F>
        ensures { result ≡ record { a = a; b = b; past = [] } }
    {
        TwoFiles {
            a,
            b,
            past: Log::new(),
        }
    }

    // The past has one moment more, at which both are as they are.
    fn mark(&mut self)
        ensures { self.new ≡ record {
          a = self.old.a;
          b = self.old.b;
          past = self.old.past ++ (self.old.a, self.old.b) ∷ [];
        } }
    {
        self.past = self.past.and(&self.a, &self.b);
    }

    /// The length of one.
    pub(crate) fn len(&mut self, file: FileId) -> io::Result<u64>
        ensures { Asks (λ old new. Measures F.honest F.holds F.leaves result old new) file self.old
            self.new }
    {
        self.mark();
        match file {
            FileId::A => self.a.length(),
            FileId::B => self.b.length(),
        }
    }

    /// Fills `bytes` from one.
    pub(crate) fn read_at(&mut self, file: FileId, at: u64, bytes: &mut [u8]) -> io::Result<()>
        ensures { Asks (λ old new. Fills F.honest F.holds F.leaves at bytes.old bytes.new result
            old new) file self.old self.new }
    {
        self.mark();
        match file {
            FileId::A => self.a.read_fully(at, bytes),
            FileId::B => self.b.read_fully(at, bytes),
        }
    }

    /// Puts bytes into one.
    pub(crate) fn write_at(&mut self, file: FileId, at: u64, bytes: &[u8]) -> io::Result<()>
        ensures { Asks (λ old new. Puts F.honest F.holds F.leaves at bytes.now result old new) file
            self.old self.new }
    {
        self.mark();
        match file {
            FileId::A => self.a.write_fully(at, bytes),
            FileId::B => self.b.write_fully(at, bytes),
        }
    }

    /// Syncs one.
    pub(crate) fn sync(&mut self, file: FileId) -> io::Result<()>
        ensures { Asks (λ old new. Syncs F.honest F.holds F.leaves result old new) file self.old
            self.new }
    {
        self.mark();
        match file {
            FileId::A => self.a.sync_file(),
            FileId::B => self.b.sync_file(),
        }
    }

    /// A file whose name doesn't lead to it, if there is one.
    ///
    /// # Errors
    ///
    /// Why that can't be told.
    pub(crate) fn strayed(&self) -> io::Result<Option<FileId>>
        ensures none { F.honest self.now.a → F.honest self.now.b → IfOk result (λ found.
            found ≡ None → F.in_place self.now.a × F.in_place self.now.b) }
        ensures some { F.honest self.now.a → F.honest self.now.b → IfOk result (λ found.
            IfSome found (λ file. ¬ F.in_place (file_of self.now file))) }
    {
        if !self.a.is_in_place()? {
            return Ok(Some(FileId::A));
        }
        if !self.b.is_in_place()? {
            return Ok(Some(FileId::B));
        }
        Ok(None)
    }
}
