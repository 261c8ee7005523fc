//! What the program asks of the machine on which it runs.

ghost use Rattle.std.specs.Prelude.{◌≡◌, ℕ, Bool, List, IfOk, IfErr, OnOk, OnErr, IsTrue};
ghost use Rattle.sqlite.specs.Files.{image_of};
ghost use Rattle.sqlite.specs.Recovery.{Image};
ghost use Rattle.sqlite_disk.specs.declared.Files.{Files};
ghost use Rattle.registry_commands.specs.declared.messages.Failure.{Failure};
ghost use Rattle.registry_program.specs.Opening.{IsOfFiles};

use byte_streams::{Broken, Source};
use registry_commands::Failure;
use sqlite::{Files, Options};
use sqlite_disk::Disk;
use std::alloc::Global;

/// The most bytes of an input that is read as a whole.
pub(crate) const MOST_INPUT: u64 = 4_294_967_295;

/// What a failure is about.
#[derive(Clone, Copy, Debug, PartialEq, Eq)]
pub enum About {
    /// The store.
    Store,
    /// The file that is read, or the standard input.
    Input,
    /// The standard output.
    Output,
    /// The port.
    Port,
    /// The log that several machines share.
    Log,
}

/// Why a call of a machine failed.
#[derive(Debug, Drop)]
pub struct Cause {
    pub about: About,
    /// The cause in a few words.
    pub words: String,
}

/// A machine with files and ports. A state of it is known by the calls that led to it, in their
/// order.
pub trait Host {
    /// A file of a store.
    type File: Disk + Drop;

    /// A file that is read.
    type Input: Source + Drop;

    /// What the files of the store at a path hold when they are opened.
    ghost holds: { Self → List ℕ → Image };

    /// These files of the store at a path were opened. The flag says whether the store might be made.
    ghost opens: { Self → Self → List ℕ → Bool → Files Self.File → Type 0 };

    /// They could not be opened.
    ghost misses: { Self → Self → List ℕ → Bool → Failure → Type 0 };

    /// The file at a path was opened, to be read, which may have so many bytes.
    ghost reads: { Self → Self → List ℕ → ℕ → Self.Input → Type 0 };

    /// It could not be opened, or is known to have more.
    ghost lacks: { Self → Self → List ℕ → ℕ → Failure → Type 0 };

    /// Connections to a port now come to this machine.
    ghost listens: { Self → Self → ℕ → Type 0 };

    /// They cannot.
    ghost is_refused: { Self → Self → ℕ → Type 0 };

    /// These files of a store were closed.
    ghost lets_go: { Self → Self → Files Self.File → Type 0 };

    /// Opens the files of the store at a path, for this process alone. If there is no store there,
    /// makes an empty one if it may.
    ///
    /// # Errors
    ///
    /// `File` if there is no store, or it cannot be looked for, and none may be made; otherwise
    /// `Memory` when out of memory, and `Store` if the files cannot be opened or made.
    fn open_store(
        &mut self,
        path: &str,
        may_make: bool,
    ) -> Result<(Files<Self::File>, Options), Failure>
        ensures opened { IfOk result (λ store. opens self.old self.new path.now may_make store.0) }
        ensures missed { IfErr result (λ failure. misses self.old self.new path.now may_make failure) }
        ensures kind { IfErr result (IsOfFiles may_make) }
        ensures usable { IfOk result (λ store. IsTrue (Self.File.Disk.is_usable store.0.log) × IsTrue (Self.File.Disk.is_usable store.0.db)) }
        ensures found { IfOk result (λ store. image_of Self.File.Disk store.0 ≡ holds self.old path.now) };

    /// Opens the file at a path, to be read. One that is known to have more than `most` bytes is not
    /// opened.
    ///
    /// # Errors
    ///
    /// `File` if that fails.
    fn open_input(&mut self, path: &str, most: u64) -> Result<Self::Input, Failure>
        ensures opened { IfOk result (λ source. reads self.old self.new path.now most source) }
        ensures missed { IfErr result (λ failure. lacks self.old self.new path.now most failure) }
        ensures kind { IfErr result (λ failure. failure ≡ Failure.File) };

    /// Listens on a port of this machine, which no other machine can reach.
    ///
    /// # Errors
    ///
    /// `Broken` if that fails.
    fn listen(&mut self, port: u16) -> Result<(), Broken>
        ensures listens { OnOk result (listens self.old self.new port) }
        ensures refused { OnErr result (is_refused self.old self.new port) };

    /// Returns why the last call failed that did, as the system named it. If none did, looks at the
    /// store at this path, if one is given. Returns `None` if it knows no cause, or memory runs out.
    fn cause(&self, alloc: Global, store: Option<&str>) -> Option<Cause>;

    /// Returns whether a look at the files of the store at this path shows a registry, and showed none
    /// when the store was opened. No clause says when it does.
    fn shows_registry(&self, alloc: Global, path: &str) -> bool;

    /// Returns the bytes that were read of the input, if this machine keeps them and has memory for
    /// them. A further call may return `None`.
    fn take_kept(&self, alloc: Global) -> Option<Vec<u8>>;

    /// Closes the files of a store as they are.
    fn let_go(&mut self, files: Files<Self::File>)
        ensures { lets_go self.old self.new files };
}
