//! Files in memory of which chosen calls fail.

ghost use Rattle.std.specs.Prelude.{◌≡◌, ◌≤◌, ◌&&◌, IfOk, OnOk, OnErr, None, option_map, is_some, vec_len};
ghost use Rattle.std.specs.FinMap as map;
ghost use Rattle.edi_host.specs.Files.{FetchGives, FetchEmpties, KeepsOrNot, fetch_fault, keep_fault};
ghost use Rattle.edi_host.specs.Plan.{planned, strikes, after_call};

use crate::files::{FetchEnd, Files, KeepEnd};
use crate::plan::FaultPlan;
use crate::steady::files::SteadyFiles;
use std::alloc::{AllocError, Global};
use std::marker::Model;

/// Files in memory of which chosen calls fail.
#[derive(Drop)]
pub struct MemoryFiles {
    files: SteadyFiles,
    plan: FaultPlan,
}

impl Model for MemoryFiles {
    ghost use Rattle.edi_host.specs.Forms.{FailingFiles, failing_files_code};

    ghost Value = { FailingFiles };

    ghost coded = { failing_files_code };

    ghost view = { λ f. record { contents = f.files; plan = f.plan } };
}

impl MemoryFiles {
    /// No files. The calls of `fetch` and `keep` whose numbers, counted together from 1, are in `failing` fail.
    pub fn new(alloc: Global, failing: &[u64]) -> Result<MemoryFiles, AllocError>
        ensures made { IfOk result (λ files. files ≡ record { contents = map.empty; plan = planned failing.now }) }
    {
        Ok(MemoryFiles {
            files: SteadyFiles::new(alloc)?,
            plan: FaultPlan::new(alloc, failing)?,
        })
    }

    /// Puts a file in, whose name is new. It is not one of the calls that can fail. After want of memory
    /// nothing has changed.
    pub fn add(&mut self, alloc: Global, name: &str, bytes: &[u8]) -> Result<(), AllocError>
        requires { map.get self.old.contents name.now ≡ None }
        ensures ok { OnOk result (self.new.contents ≡ map.insert self.old.contents name.now bytes.now) }
        ensures err { OnErr result (self.new.contents ≡ self.old.contents) }
        ensures plan { self.new.plan ≡ self.old.plan }
    {
        self.files.add(alloc, name, bytes)
    }

    /// The bytes of a file. `None` comes exactly where no file has the name.
    pub fn get(&self, name: &str) -> Option<&[u8]>
        ensures found { option_map (λ bytes. bytes.now) result ≡ map.get self.now.contents name.now }
    {
        self.files.get(name)
    }
}

impl Files for MemoryFiles {
    ghost use Rattle.std.specs.Prelude.{Some};

    ghost contents = { λ s. Some s.contents };

    ghost faults = { λ s. s.plan.faults };

    /// A call that is to fail fails only where the file is there, since `Absent` comes exactly where it is not.
    fn fetch(&mut self, alloc: Global, name: &str, limit: usize, into: &mut Vec<u8>) -> FetchEnd
        ensures gives { FetchGives result (map.get self.old.contents name.now) limit into.new.items }
        ensures fails { fetch_fault result ≡ (strikes self.old.plan && is_some (map.get self.old.contents name.now)) }
        ensures empties { FetchEmpties result into.new.items }
        ensures bounded { vec_len into.new ≤ limit }
        ensures unchanged { self.new.contents ≡ self.old.contents }
        ensures plan { self.new.plan ≡ after_call (fetch_fault result) self.old.plan }
    {
        let fault = self.plan.strikes() && self.files.get(name).is_some();
        self.plan.count(fault);
        if fault {
            into.clear();
            return FetchEnd::Failed;
        }
        self.files.fetch(alloc, name, limit, into)
    }

    fn keep(&mut self, alloc: Global, name: &str, bytes: &[u8]) -> KeepEnd
        ensures leaves { KeepsOrNot result name.now bytes.now self.old.contents self.new.contents }
        ensures fails { keep_fault result ≡ strikes self.old.plan }
        ensures plan { self.new.plan ≡ after_call (strikes self.old.plan) self.old.plan }
    {
        if self.plan.call() {
            return KeepEnd::Failed;
        }
        self.files.keep(alloc, name, bytes)
    }
}
