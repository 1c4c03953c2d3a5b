//! A number for what was made and listed.

ghost use Rattle.std.specs.Prelude.{◌≡◌};
ghost use Rattle.vpf_drill.specs.Digest.{digest_after, digest_of_files};

use vpf_source::File;

/// A number of 32 bits over bytes, which changes with each of them. It begins at 0; each byte is added to 31 times what is there, modulo
/// 2^32.
#[derive(Clone, Copy)]
pub(crate) struct Digest(pub(crate) u32);

impl Digest {
    /// That of no byte.
    pub(crate) const EMPTY: Digest = Digest(0);

    /// With these bytes behind those so far.
    pub(crate) fn and(self, bytes: &[u8]) -> Digest
        ensures { result.0 ≡ digest_after self.0 bytes.now }
    {
        let mut digest = self.0;
        for byte in bytes {
            digest = digest.wrapping_mul(31).wrapping_add(u32::from(*byte));
        }
        Digest(digest)
    }

    /// With the bytes of these files, file after file, behind those so far.
    pub(crate) fn and_files(self, files: &[File]) -> Digest
        ensures { result.0 ≡ digest_of_files self.0 files.now }
    {
        let mut digest = self;
        for file in files {
            digest = digest.and(file.bytes.as_slice());
        }
        digest
    }
}
