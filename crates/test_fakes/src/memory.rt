// Sources, sinks and files in memory. They tell all their bytes, and never fail of themselves.
ghost use Rattle.std.specs.Prelude.{◌≡◌, ◌<◌, ◌≤◌, ◌↔◌, [], ◌∷◌, ◌++◌, None, Some, map, option_map, drop, length, min, string_bytes, IfOk, IfSome, IsErrOf, IsOk, OnErr, OnOk};
ghost use Rattle.cc_base.specs.Outside.{HasRisen, IsLogged, IsNext, after};
ghost use Rattle.test_fakes.specs.Memory.{contents_of, IsRefused};

use cc_base::{Failed, FileFault, Files, MAX_FILE_LEN, Sink, Source};
use std::alloc::{AllocError, Global};

/// Bytes to read. No call fails.
#[derive(Drop)]
pub struct MemorySource {
    bytes: Vec<u8>,
    at: usize,
    ghost within: { at ≤ length bytes.items },
}

impl MemorySource {
    /// A source of these bytes.
    pub fn new(bytes: Vec<u8>) -> Self
        ensures left { ⟦<Self as Source>⟧.left result ≡ Some bytes.items }
        ensures faults { ⟦<Self as Source>⟧.faults result ≡ 0 }
    {
        MemorySource { bytes, at: 0 }
    }
}

impl Source for MemorySource {
    ghost faults = { λ _. 0 };

    ghost left = { λ m. Some (drop m.at m.bytes.items) };

    ghost beside = { λ _. (0, None) };

    /// Gives as many bytes as the buffer has room for.
    fn read(&mut self, buf: &mut [u8]) -> Result<usize, Failed>
        requires { 0 < length buf.old }
        ensures never { IsOk result }
        ensures full { IfOk result (λ n. IfSome (⟦<Self as Source>⟧.left self.old)
            (λ told. n ≡ min (length told) (length buf.old))) }
        ensures fits { IfOk result (λ n. n ≤ length buf.new) }
        ensures next { IfOk result
            (λ n. IfSome (⟦<Self as Source>⟧.left self.old) (λ told. IsNext n buf.new told)) }
        ensures left { IfOk result
            (λ n. ⟦<Self as Source>⟧.left self.new ≡ after n (⟦<Self as Source>⟧.left self.old)) }
    {
        let rest = &self.bytes[self.at..];
        let n = rest.len().min(buf.len());
        buf[..n].copy_from_slice(&rest[..n]);
        self.at += n;
        Ok(n)
    }
}

/// Bytes that were written. A call fails only for want of memory, which counts as a fault.
#[derive(Drop)]
pub struct MemorySink {
    bytes: Vec<u8>,
    faults: u64,
}

impl MemorySink {
    /// A sink that nothing was written to.
    pub fn new(alloc: Global) -> Self
        ensures written { ⟦<Self as Sink>⟧.written result ≡ Some [] }
        ensures faults { ⟦<Self as Sink>⟧.faults result ≡ 0 }
    {
        MemorySink {
            bytes: Vec::new(alloc),
            faults: 0,
        }
    }

    /// What was written.
    pub fn bytes(&self) -> &[u8]
        ensures { ⟦<Self as Sink>⟧.written self.now ≡ Some result.now }
    {
        &self.bytes
    }
}

impl Sink for MemorySink {
    ghost faults = { λ m. m.faults };

    ghost written = { λ m. Some m.bytes.items };

    ghost beside = { λ _. (0, None) };

    fn write(&mut self, bytes: &[u8]) -> Result<usize, Failed> {
        if self.bytes.extend_from_slice(bytes).is_err() {
            self.faults = self.faults.saturating_add(1);
            return Err(Failed);
        }
        Ok(bytes.len())
    }
}

/// A file in memory.
#[derive(Drop)]
pub struct MemoryFile {
    pub name: String,
    pub bytes: Vec<u8>,
}

/// Files in memory. A call fails for an absent name, for a file that is too long, and for want of
/// memory. The first two count as faults.
///
/// The name of each call is kept, whatever its answer, unless there is no room for it.
#[derive(Drop)]
pub struct MemoryFiles {
    files: Vec<MemoryFile>,
    names: Vec<String>,
    faults: u64,
}

impl MemoryFiles {
    /// These files. Of two with one name, the first is loaded.
    pub fn new(alloc: Global, files: Vec<MemoryFile>) -> Self
        ensures contents { ⟦<Self as Files>⟧.contents result ≡ contents_of files.items }
        ensures log { ⟦<Self as Files>⟧.log result ≡ Some [] }
        ensures faults { ⟦<Self as Files>⟧.faults result ≡ 0 }
    {
        MemoryFiles {
            files,
            names: Vec::new(alloc),
            faults: 0,
        }
    }

    /// The names that were asked for, in the order of the calls.
    pub fn names(&self) -> &[String]
        ensures { ⟦<Self as Files>⟧.log self.now ≡ Some (map string_bytes result.now) }
    {
        &self.names
    }

    // Keeps a name, unless there is no room for it.
    fn note(&mut self, alloc: Global, name: &str) -> Result<(), AllocError>
        ensures noted { OnOk result
            (map string_bytes self.new.names.items
            ≡ map string_bytes self.old.names.items ++ name.now ∷ []) }
        ensures unnoted { OnErr result (self.new.names.items ≡ self.old.names.items) }
        ensures files { self.new.files ≡ self.old.files }
        ensures faults { self.new.faults ≡ self.old.faults }
    {
        self.names.push(String::from_str(alloc, name)?)?;
        Ok(())
    }
}

// The bytes of the first file of that name.
fn bytes_of<'a>(files: &'a [MemoryFile], name: &str) -> Option<&'a [u8]>
    ensures { option_map (λ bytes. bytes.now) result ≡ contents_of files.now name.now }
{
    let file = files.iter().find(|f| f.name.as_str() == name)?;
    Some(&file.bytes)
}

impl Files for MemoryFiles {
    ghost faults = { λ m. m.faults };

    ghost contents = { λ m. contents_of m.files.items };

    ghost log = { λ m. Some (map string_bytes m.names.items) };

    fn load(&mut self, alloc: Global, name: &str) -> Result<Vec<u8>, FileFault>
        // It fails for an absent file and for one that is too long alone, and counts that.
        ensures refused { IsErrOf result FileFault.Failed
            ↔ IsRefused (⟦<Self as Files>⟧.contents self.old name.now) }
        ensures later { self.old.faults ≤ self.new.faults }
        ensures cause { IsErrOf result FileFault.Failed → HasRisen self.old.faults self.new.faults }
        // What is loaded is the file.
        ensures bytes { IfOk result
            (λ v. IfSome (⟦<Self as Files>⟧.contents self.old name.now) (λ told. v.items ≡ told)) }
        ensures long { IfOk result (λ v. length v.items ≤ 67108864) }
        // No file changes, and what was loaded is told.
        ensures contents { ⟦<Self as Files>⟧.contents self.new
            ≡ ⟦<Self as Files>⟧.contents self.old }
        ensures logged { IsLogged (⟦<Self as Files>⟧.log self.old) (⟦<Self as Files>⟧.log self.new)
            name.now result }
    {
        let noted = self.note(alloc, name);
        match bytes_of(&self.files, name) {
            Some(bytes) if bytes.len() <= MAX_FILE_LEN => {
                noted?;
                Ok(bytes.to_vec(alloc)?)
            }
            _ => {
                self.faults = self.faults.saturating_add(1);
                Err(FileFault::Failed)
            }
        }
    }
}
