ghost use Rattle.std.specs.Prelude.{◌≡◌, ◌∷◌, [], Some, IfOk, true};
ghost use Rattle.first_form.specs.ClassFiles.{is_own_name, tree_of};
ghost use Rattle.first_form.specs.Reading.{class_of};
ghost use Rattle.machine_model.specs.Jobs.{AreInRange, main_tree};

use first_form_read::ClassFile;
use jv_names::Units;
use std::alloc::{AllocError, Global};
use std::marker::Model;
use ti_ids::Limits;

/// What is to be run: a main class with the bytes of its file, and the limits of the run. Contracts see the job of the
/// definitions.
#[derive(Drop)]
pub struct Job {
    file: ClassFile,
    bytes: Vec<u8>,
    limits: Limits,
}

impl Model for Job {
    ghost use Rattle.std.specs.Prelude.{◌≡◌, ◌∷◌, [], Some};
    ghost use Rattle.first_form.specs.Reading.{class_of};
    ghost use Rattle.machine_model.specs.Jobs.{Job as TheJob, AreInRange};

    ghost Value = { TheJob };

    ghost view = { λ j. record { main = j.file.name; classes = j.bytes.items ∷ []; donors = []; agents = []; limits = j.limits } };

    ghost invariant = { λ j. (class_of j.bytes.items ≡ Some j.file) × AreInRange j.limits };
}

impl Job {
    /// The job of a class file that was read from these bytes.
    pub fn new(file: ClassFile, bytes: Vec<u8>, limits: Limits) -> Job
        requires read { class_of bytes.items ≡ Some file }
        requires in_range { AreInRange limits }
        ensures made { result ≡ record { main = file.name; classes = bytes.items ∷ []; donors = []; agents = []; limits = limits } }
    {
        Job {
            file,
            bytes,
            limits,
        }
    }

    /// The main class's name.
    pub fn main(&self) -> &Units
        ensures same { result.now ≡ self.now.main }
        ensures named { is_own_name self.now.main ≡ true }
    {
        self.file.name()
    }

    /// The main class's file.
    pub fn file(&self) -> &ClassFile
        ensures tree { main_tree self.now ≡ Some (tree_of result.now) }
        ensures no_agents { self.now.agents ≡ [] }
    {
        &self.file
    }

    pub fn limits(&self) -> Limits
        ensures same { result ≡ self.now.limits }
        ensures in_range { AreInRange result }
    {
        self.limits
    }

    /// An equal job.
    pub fn clone_in(&self, alloc: Global) -> Result<Job, AllocError>
        ensures same { IfOk result (λ j. j ≡ self.now) }
    {
        Ok(Job {
            file: self.file.clone_in(alloc)?,
            bytes: self.bytes.as_slice().to_vec(alloc)?,
            limits: self.limits,
        })
    }

    /// Whether both are one job. What a file says is told by its bytes.
    pub fn same(&self, other: &Job) -> bool
        ensures equal { result ≡ true → self.now ≡ other.now }
        ensures exact { self.now ≡ other.now → result ≡ true }
    {
        self.bytes.as_slice() == other.bytes.as_slice() && self.limits == other.limits
    }
}
