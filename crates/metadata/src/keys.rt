// The metadata's keys: `chunk.` or `root.` with a number in hex, `name.` with a map's name, at the
// start of an array.
ghost use Rattle.std.specs.Prelude.{◌+◌, ◌≤◌, ◌≡◌, ◌++◌, length, take};
ghost use Rattle.std.proofs.Math.Seq.{paste};
ghost use Rattle.numeral.specs.Hex.{hex_text};
ghost use Rattle.metadata.specs.Keys.{chunk_key, name_key, root_key, key_bytes, number_key, long_key};

// A key in an array of `N` bytes: the first `len` of them.
#[derive(Clone, Copy)]
pub struct KeyBytes<const N: usize> {
    pub bytes: [u8; N],
    pub len: usize,
}

// The longest name of a map.
pub const NAME: usize = 1000;

impl<const N: usize> KeyBytes<N> {
    // `prefix` and then `rest`.
    fn joined(prefix: &[u8], rest: &[u8]) -> KeyBytes<N>
        requires { length prefix.now + length rest.now ≤ N }
        ensures { result ≡ key_bytes N (prefix.now ++ rest.now) }
    {
        let mut bytes = [0u8; N];
        put(&mut bytes, 0, prefix);
        put(&mut bytes, prefix.len(), rest);
        KeyBytes {
            bytes,
            len: prefix.len() + rest.len(),
        }
    }

    // The key alone.
    pub fn text(&self) -> &[u8]
        ensures { result.now ≡ take self.now.len self.now.bytes }
    {
        &self.bytes[..self.len.min(N)]
    }
}

// Writes `s` at `at`.
fn put(key: &mut [u8], at: usize, s: &[u8])
    requires { at + length s.now ≤ length key.old }
    ensures { key.new ≡ paste key.old at s.now (length s.now) }
{
    key[at..at + s.len()].copy_from_slice(s);
}

// A short prefix and a number in hex.
fn number_key(prefix: &[u8], n: u64) -> KeyBytes<22>
    requires { length prefix.now ≤ 6 }
    ensures { result ≡ number_key (prefix.now ++ hex_text n) }
{
    let digits = numeral::write_hex(n);
    KeyBytes::joined(prefix, &digits.bytes[digits.start..])
}

// The key of where chunk `c` is.
pub fn chunk_key(c: u32) -> KeyBytes<22>
    ensures { result ≡ number_key (chunk_key c) }
{
    number_key(b"chunk.", c as u64)
}

// The key of a map's root.
pub fn root_key(map: u32) -> KeyBytes<22>
    ensures { result ≡ number_key (root_key map) }
{
    number_key(b"root.", map as u64)
}

// The key of a map's id, by the first 1,000 bytes of a name: no longer one is asked for.
pub fn name_key(name: &[u8]) -> KeyBytes<1005>
    ensures { result ≡ long_key (name_key (take 1000 name.now)) }
{
    KeyBytes::joined(b"name.", text::bytes_at(name, 0, NAME))
}
