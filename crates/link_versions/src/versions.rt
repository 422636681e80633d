//! The versions of classes, and how far classes are.
ghost use Rattle.std.specs.Prelude.{◌≡◌, ◌+◌, ◌<◌, ◌^◌, OnOk, OnErr, IfOk, IfSome, option_copied};
ghost use Rattle.class_code.specs.Listing.{IsRising};
ghost use Rattle.link_versions.specs.Classes.{version_count, newest_version, next_version};
ghost use Rattle.link_versions.specs.Changes.{IsThere, IsOfFile, CanInstall, with_class, with_version, with_state};
ghost use Rattle.link_versions.specs.ReadyCode.{code_in};

use crate::class::Version;
use crate::{Classes, entries};
use class_code::Instr;
use class_tree::ClassFile;
use std::alloc::AllocError;
use ti_ids::{ClassNo, InitState, MethodNo, VersionNo};

impl Classes {
    /// Installs a version of a class of a file, and gives its number. It is the newest one from then on; the earlier ones stay.
    ///
    /// Only want of memory refuses it.
    pub fn install(&mut self, class: ClassNo, tree: ClassFile) -> Result<VersionNo, AllocError>
        requires can { CanInstall self.old class tree }

        // The place of a version fits 32 bits.
        requires room { version_count self.old class + 1 < 2 ^ 32 }
        ensures installed { OnOk result (self.new ≡ with_class (with_version tree) class self.old) }
        ensures number { IfOk result (λ v. v ≡ next_version self.old class) }

        // After want of memory all is as it was.
        ensures err { OnErr result (self.new ≡ self.old) }
    {
        let place = entries::version_count(&self.table, class) as u32;
        let version = Version::new(self.alloc, tree)?;
        self.table.add_version(class.0 as usize - 1, version)?;
        Ok(VersionNo { class, place })
    }

    /// The newest version of a class of a file. It takes the same time for every class.
    pub fn version_of(&self, class: ClassNo) -> VersionNo
        requires { IsOfFile self.now class }
        ensures { result ≡ newest_version self.now class }
    {
        let count = entries::version_count(&self.table, class);
        VersionNo {
            class,
            place: (count - 1) as u32,
        }
    }

    /// The instructions of a method in a version, made ready for running, each with its offset in bytes.
    ///
    /// There are none where the method is abstract, where it is not of the version's class, and where the version or the method is
    /// not there. It takes the same time for every count of methods.
    pub fn code(&self, version: VersionNo, method: MethodNo) -> Option<&[(u16, Instr)]>
        ensures code { option_copied result ≡ code_in self.now version method }

        // Its offsets rise, as `bytecode_local` asks.
        ensures rising { IfSome result (λ list. IsRising list.now) }
    {
        entries::code(&self.table, version, method)
    }

    /// Sets how far a class is.
    pub fn set_init_state(&mut self, class: ClassNo, state: InitState)
        requires { IsThere self.old class }
        ensures { self.new ≡ with_class (with_state state) class self.old }
    {
        self.table.set_init_state(class.0 as usize - 1, state);
    }
}
