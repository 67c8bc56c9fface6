ghost use Rattle.std.specs.Prelude.{◌≡◌, ◌≤◌};
ghost use Rattle.ec_outside.specs.Faults.{Rose};

use ec_fields::Octets;

/// A file by its name.
#[derive(Drop)]
pub struct StoredFile {
    /// The octets of its name.
    pub name: Octets,
    /// Its contents.
    pub octets: Octets,
}

/// What a load found.
#[derive(Clone, Copy)]
pub enum Loaded {
    /// The file; its contents were loaded.
    Found,
    /// There is no file of that name.
    Absent,
    /// The file has more octets than the limit.
    TooLong,
}

/// Why a call of files failed.
#[derive(Clone, Copy)]
pub enum FilesErr {
    /// A fault of the files; their count of faults rose.
    Failed,
    /// Want of memory.
    NoMemory,
}

/// Files that are loaded and saved whole, by name.
///
/// `table` is what the files are, where that is told; `file_faults` counts the faults. It never
/// falls, and stands still at the greatest `u64`.
pub trait Files {
    ghost use Rattle.std.specs.Prelude.{ℕ, Option};
    ghost use Rattle.ec_outside.specs.Files.{Table, Loads, Saves};

    ghost table: { Self → Option Table };

    ghost file_faults: { Self → ℕ };

    /// Replaces the contents of `into` by the file's. Where the file is absent or has more than
    /// `limit` octets, `into` is empty. After an error nothing is said of `into`. `Failed` comes
    /// only where the count of faults rose in this call.
    fn load(&mut self, name: &str, limit: usize, into: &mut Octets) -> Result<Loaded, FilesErr>
        ensures loaded { Loads (table self.old) name.now limit into.new result }
        ensures same { table self.new ≡ table self.old }
        ensures later { file_faults self.old ≤ file_faults self.new }
        ensures cause { result ≡ Err FilesErr.Failed → Rose (file_faults self.old) (file_faults self.new) };

    /// Sets the contents of a name whole. After `Failed`, which comes only where the count of
    /// faults rose in this call, nothing is known of that name alone; after `NoMemory` all files
    /// are as before.
    fn save(&mut self, name: &str, bytes: &[u8]) -> Result<(), FilesErr>
        ensures saved { Saves (table self.old) (table self.new) name.now bytes.now result }
        ensures later { file_faults self.old ≤ file_faults self.new }
        ensures cause { result ≡ Err FilesErr.Failed → Rose (file_faults self.old) (file_faults self.new) };
}
