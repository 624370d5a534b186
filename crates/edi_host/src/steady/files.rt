//! Files in memory that never fail.

ghost use Rattle.std.specs.Prelude.{◌≡◌, IfOk, OnOk, OnErr, None, option_map};
ghost use Rattle.std.specs.FinMap as map;

use crate::files::{FetchEnd, Files, KeepEnd};
use std::alloc::{AllocError, Global};
use std::collections::BTreeMap;
use std::marker::Model;

/// Files in memory that never fail, seen as the map from names to bytes.
#[derive(Drop)]
pub struct SteadyFiles {
    files: BTreeMap<String, Vec<u8>>,
}

impl Model for SteadyFiles {
    ghost use Rattle.edi_host.specs.Contents.{Contents};
    ghost use Rattle.edi_host.specs.Forms.{contents_code, contents_in};

    ghost Value = { Contents };

    ghost coded = { contents_code };

    ghost view = { λ f. contents_in f.files.entries };
}

impl SteadyFiles {
    /// No files.
    pub fn new(alloc: Global) -> Result<SteadyFiles, AllocError>
        ensures none { IfOk result (λ files. files ≡ map.empty) }
    {
        Ok(SteadyFiles {
            files: BTreeMap::new(alloc),
        })
    }

    /// Puts a file in, whose name is new. After want of memory nothing has changed.
    pub fn add(&mut self, alloc: Global, name: &str, bytes: &[u8]) -> Result<(), AllocError>
        requires { map.get self.old name.now ≡ None }
        ensures ok { OnOk result (self.new ≡ map.insert self.old name.now bytes.now) }
        ensures err { OnErr result (self.new ≡ self.old) }
    {
        self.set(alloc, name, bytes)
    }

    /// The bytes of a file. `None` comes exactly where no file has the name.
    pub fn get(&self, name: &str) -> Option<&[u8]>
        ensures found { option_map (λ bytes. bytes.now) result ≡ map.get self.now name.now }
    {
        Some(self.files.get(name)?.as_slice())
    }

    // Makes these the bytes of the file, which need not be new.
    fn set(&mut self, alloc: Global, name: &str, bytes: &[u8]) -> Result<(), AllocError>
        ensures ok { OnOk result (self.new ≡ map.insert self.old name.now bytes.now) }
        ensures err { OnErr result (self.new ≡ self.old) }
    {
        let name = String::from_str(alloc, name)?;
        let bytes = Vec::from_slice(alloc, bytes)?;
        self.files.insert(name, bytes)?;
        Ok(())
    }
}

impl Files for SteadyFiles {
    ghost use Rattle.std.specs.Prelude.{Some};

    ghost contents = { λ s. Some s };

    ghost faults = { λ s. 0 };

    fn fetch(&mut self, alloc: Global, name: &str, limit: usize, into: &mut Vec<u8>) -> FetchEnd {
        let _ = alloc;
        into.clear();
        let Some(bytes) = self.get(name) else {
            return FetchEnd::Absent;
        };
        match into.extend_from_slice(&bytes[..bytes.len().min(limit)]) {
            Ok(()) => FetchEnd::Ok,
            Err(_) => FetchEnd::NoMemory,
        }
    }

    fn keep(&mut self, alloc: Global, name: &str, bytes: &[u8]) -> KeepEnd {
        match self.set(alloc, name, bytes) {
            Ok(()) => KeepEnd::Ok,
            Err(_) => KeepEnd::NoMemory,
        }
    }
}
